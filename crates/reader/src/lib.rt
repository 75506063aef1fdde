// Reading a table under the settings that the caller names: is it one, its description, element k and its variable part. Every call
// checks the whole table first.
#![tactic(auto)]

ghost use Rattle.std.specs.Prelude.{◌≡◌, ◌≤◌, length, drop};
ghost use Rattle.format.specs.Slots.{byte, Bytes};
ghost use Rattle.format.specs.Claims.{made_at, first_claims};
ghost use Rattle.format.specs.Verdict.{stated, Verdict};
ghost use Rattle.format.specs.Decode.{read_description};
ghost use Rattle.format.specs.Reader.{elements_of, conclude, after_description};
ghost use Rattle.claims.specs.Taken.{HeldIs};
ghost use Rattle.format.specs.Answers.{told};
ghost use Rattle.format.specs.Asked.{Describes};
ghost use Rattle.reader.specs.Whole.{Gathered};
ghost use Rattle.reader.specs.Bare.{plain, bare_table};
ghost use Rattle.reader.specs.Answered.{GivesElement, GivesPart};
ghost use Rattle.reader.specs.PartPlace.{placed, Places, GivesPlace};

use claims::Held;
use flags::lacks;
use format::answers::{Refusal, Rule};
use format::pins::Chip;
use format::records::{Description, Element};
use format::settings::Settings;
use pass::{Marks, State, walk};
use walking::{element_at, length_at, part_at, place_of};

// The number of elements, or the first rule that is broken, with its place.
// A bare table is answered before the flags are laid out, which takes longer than all its tests (docs/BENCH.md). The other
// calls go to `read`: so `check` stays small enough to be laid into its callers.
pub fn check(table: &[u8], settings: Settings) -> Result<usize, Refusal>
    ensures { Verdict settings table.now (told result) }
{
    let chip = settings.chip;
    if bare(table, chip) {
        return Ok(0);
    }
    read(table, settings)
}

// The description of an accepted table, or the table's refusal.
pub fn description(table: &[u8], settings: Settings) -> Result<Description, Refusal>
    ensures { Describes settings table.now (told result) }
{
    let answer = read(table, settings);
    let Ok(_) = answer else {
        return Err(answer.unwrap_err());
    };
    let chip = settings.chip;
    Ok(fields::description(table, chip))
}

// Element k of an accepted table; the table's refusal, or 17.
pub fn element(table: &[u8], k: usize, settings: Settings) -> Result<Element, Refusal>
    ensures { GivesElement settings table.now k (told result) }
{
    let at = place(table, k, settings)?;
    let chip = settings.chip;
    Ok(element_at(table, at, chip))
}

// Where element k of an accepted table stands; the table's refusal, or 17.
fn place(table: &[u8], k: usize, settings: Settings) -> Result<usize, Refusal>
    ensures { Places settings table.now k result }
{
    let answer = read(table, settings);
    let Ok(n) = answer else {
        return answer;
    };
    if n <= k {
        return Err(Rule::PastTheLast.at(0));
    }
    Ok(place_of(table, k))
}

// Its variable part, as that part of the lent table; an empty part with a refusal.
pub fn part(table: &[u8], k: usize, settings: Settings) -> &[u8]
    ensures { GivesPart settings table.now k result.now }
{
    let Ok(at) = place(table, k, settings) else {
        return &table[0..0];
    };
    part_at(table, at)
}

// Where the variable part of an element stands in the table, and how long it is.
#[derive(Clone, Copy)]
pub struct Span {
    pub place: usize,
    pub len: usize,
}

// The place of the variable part of element k, behind the element's fixed fields also where the part is empty, and its length; or
// what `element` refuses with.
pub fn part_place(table: &[u8], k: usize, settings: Settings) -> Result<Span, Refusal>
    ensures { GivesPlace settings table.now k (placed result) }
{
    let at = place(table, k, settings)?;
    let from = walking::part_place(table, at);
    let len = at + length_at(table, at) - from;
    Ok(Span { place: from, len })
}

// All rules in their order.
fn read(t: &[u8], settings: Settings) -> Result<usize, Refusal>
    ensures { Verdict settings t.now (told result) }
{
    if t.len() < 16 {
        return Err(Rule::Under16Bytes.at(0));
    }
    if t[0] != 1 {
        return Err(Rule::Revision.at(0));
    }
    if stated(t) != t.len() {
        return Err(Rule::TableLength.at(0));
    }
    if 4096 < t.len() {
        return Err(Rule::TableLength.at(0));
    }
    described(t, settings)
}

// The length that bytes 1-2 give.
fn stated(t: &[u8]) -> usize
    requires { 3 ≤ length t.now }
    ensures { result ≡ stated t.now }
{
    usize::from(t[1]) + 256 * usize::from(t[2])
}

// What follows the first three rules.
fn described(t: &[u8], settings: Settings) -> Result<usize, Refusal>
    requires { (16 ≤ length t.now) × (length t.now ≤ 4096) × Bytes t.now }
    ensures { told result ≡ after_description settings (read_description settings.chip (byte t.now)) (drop 16 t.now) }
{
    let chip = settings.chip;
    let d = fields::description(t, chip);
    if let Err(rule) = rules::description_breaks(d, chip) {
        return Err(rule.at(0));
    }
    elements(t, claims::first_claims(d), settings)
}

// The elements, after a good description. All flags are clear at the start.
fn elements(t: &[u8], held: Held, settings: Settings) -> Result<usize, Refusal>
    requires { (16 ≤ length t.now) × (length t.now ≤ 4096) × Bytes t.now
        × HeldIs held (made_at 0 (first_claims (read_description settings.chip (byte t.now)))) }
    ensures { told result ≡ conclude (read_description settings.chip (byte t.now)) (elements_of settings t.now) }
{
    let mut zs = [false; 256];
    let mut ss = [false; 256];
    let mut zu = [false; 256];
    let mut su = [false; 256];
    let mut marks = Marks {
        zones: &mut zs,
        strings: &mut ss,
        zone_uses: &mut zu,
        string_uses: &mut su,
    };
    let n = usize::from(t[4]);
    marks.string_uses[n] = true;
    let start = State {
        count: 0,
        zones: 0,
        held,
        last: 0,
    };
    let passed = walk(&t[16..], 16, start, &mut marks, settings);
    let stop = passed.stop;
    if let Some(rule) = stop {
        return Err(rule.at(passed.place));
    }
    marks.strings[0] = true;
    let s = passed.state;
    concluded(t, s, &marks, settings)
}

// The rules over the whole table: 13, 14, 15.
fn concluded(t: &[u8], s: State, marks: &Marks, settings: Settings) -> Result<usize, Refusal>
    requires { Gathered settings t.now s marks.now.zones.now marks.now.strings.now marks.now.zone_uses.now
        marks.now.string_uses.now }
    ensures { told result ≡ conclude (read_description settings.chip (byte t.now)) (elements_of settings t.now) }
{
    if lacks(marks.zone_uses, marks.zones) {
        return Err(Rule::NoZone.at(places::zoneless(t, marks.zones)));
    }
    let strings = &*marks.strings;
    if lacks(marks.string_uses, strings) {
        let n = usize::from(t[4]);
        if !strings[n] {
            return Err(Rule::NoString.at(0));
        }
        return Err(Rule::NoString.at(places::nameless(t, strings)));
    }
    let held = s.held;
    if held.clash != 65536 {
        return Err(Rule::Clash.at(held.clash));
    }
    Ok(s.count)
}

// 16 bytes with a plain description break no rule.
fn bare(t: &[u8], chip: Chip) -> bool
    ensures { result ≡ bare_table chip t.now }
{
    if t.len() != 16 {
        return false;
    }
    (t[0] == 1) & (stated(t) == 16) & plain(fields::description(t, chip))
}

// A description that breaks neither 4 nor 5, without string index and hardware revision pins.
fn plain(d: Description) -> bool
    ensures { result ≡ plain d }
{
    let a = d.revision0;
    let b = d.revision1;
    let c = d.revision2;
    (d.string == 0)
        & rules::typed(d)
        & rules::powered(d)
        & rules::unused(a)
        & rules::unused(b)
        & rules::unused(c)
}
