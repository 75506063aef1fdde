// The label of an element: what a person reads beside it. It is a part of one of two lent slices, and no byte is copied: the text of
// the element's string, which stands in the table, or a name that the caller lends, where the element has no string.
#![tactic(auto)]

ghost use Rattle.std.specs.Prelude.{◌≡◌, List, [], ◌∷◌};
ghost use Rattle.format.specs.Slots.{byte};
ghost use Rattle.format.specs.Records.{Record};
ghost use Rattle.format.specs.ZonesAndStrings.{Role, string_named};
ghost use Rattle.format.specs.Verdict.{Accepts};
ghost use Rattle.format.specs.declared.settings.Settings.{Settings};
ghost use Rattle.format.specs.declared.records.Description.{Description};
ghost use Rattle.labels.specs.Called.{text, bears, own_text, by_number, called_of, source_of, sourced, stands_at, Found, Labelled};
ghost use Rattle.labels.specs.Roled.{Roled};

use format::answers::{Refusal, Rule};
use format::settings::Settings;
use walking::{Places, length_at, place_of};

// From which of the two it is, and where: a text in the table, its place and its length; or the lent name, whole.
#[derive(Clone, Copy)]
pub enum Source {
    Text(usize, usize),
    Lent,
}

// The label of element k; an empty part with a refusal, which `find` names.
pub fn label<'a>(table: &'a [u8], k: usize, name: &'a [u8], settings: Settings) -> &'a [u8]
    ensures { Labelled settings table.now k name.now result.now }
{
    let Ok(source) = find(table, k, settings) else {
        return &table[0..0];
    };
    match source {
        Source::Text(place, len) => {
            let end = place + len;
            &table[place..end]
        }
        Source::Lent => name,
    }
}

// Where the label of element k is; the table's refusal, or 17.
pub fn find(table: &[u8], k: usize, settings: Settings) -> Result<Source, Refusal>
    ensures { Found settings table.now k (sourced result) }
{
    let answer = reader::check(table, settings);
    let Ok(n) = answer else {
        return Err(answer.unwrap_err());
    };
    if n <= k {
        return Err(Rule::PastTheLast.at(0));
    }
    Ok(called(table, place_of(table, k)))
}

// What the element at a place is called: a string by its own text, any other by its string index.
fn called(t: &[u8], at: usize) -> Source
    requires { (σ : Settings) × (d : Description) × (rs : List Record) × (x : Role) × Accepts σ t.now d rs × Roled t.now at x }
    ensures { (σ : Settings) (d : Description) (rs : List Record) (x : Role) → Accepts σ t.now d rs
        → Roled t.now at x → source_of result ≡ stands_at (called_of rs at x) }
{
    if t[at] == 12 {
        return text_at(t, at);
    }
    let index = index_at(t, at);
    if index == 0 {
        return Source::Lent;
    }
    by_number(t, index)
}

// The text of the string with a number.
fn by_number(t: &[u8], number: u8) -> Source
    requires { (σ : Settings) × (d : Description) × (rs : List Record) × Accepts σ t.now d rs }
    ensures { (σ : Settings) (d : Description) (rs : List Record) → Accepts σ t.now d rs → source_of result ≡ stands_at (by_number number 16 rs) }
{
    for at in Places::of(t) {
        if is_string(t, at, number) {
            return text_at(t, at);
        }
    }
    Source::Lent
}

// Whether the element at a place is the string with a number.
fn is_string(t: &[u8], at: usize, number: u8) -> bool
    requires { (x : Role) × Roled t.now at x }
    ensures { (x : Role) → Roled t.now at x → result ≡ bears number x }
{
    if t[at] != 12 {
        return false;
    }
    t[at + 3] == number
}

// The string index of the element at a place, which is no string.
fn index_at(t: &[u8], at: usize) -> u8
    requires { (x : Role) × Roled t.now at x × (byte t.now at ≡ 12 → ⊥) }
    ensures { (x : Role) → Roled t.now at x → (byte t.now at ≡ 12 → ⊥) → string_named x ≡ result ∷ [] }
{
    if t[at] == 11 {
        return t[at + 4];
    }
    t[at + 3]
}

// Where the text of the string at a place stands: behind its number and its locale.
fn text_at(t: &[u8], at: usize) -> Source
    requires { (x : Role) × Roled t.now at x × (byte t.now at ≡ 12) }
    ensures { (x : Role) → Roled t.now at x → byte t.now at ≡ 12 → source_of result ≡ stands_at (text at (own_text x)) }
{
    Source::Text(at + 6, length_at(t, at) - 6)
}
