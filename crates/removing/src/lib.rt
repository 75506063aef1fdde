// Taking an element out of a table: its bytes closed up and the length mended, in the lent bytes themselves. It has the writer's rules,
// the ordinary ones; the caller names the chip.
#![tactic(auto)]

ghost use Rattle.std.specs.Prelude.{◌≡◌, List, ◌+◌, ◌-◌, ◌≤◌, length, drop};
ghost use Rattle.format.specs.Answers.{told};
ghost use Rattle.format.specs.Records.{Record};
ghost use Rattle.format.specs.Pins.{among};
ghost use Rattle.format.specs.ZonesAndStrings.{Role};
ghost use Rattle.format.specs.Verdict.{Accepts};
ghost use Rattle.format.specs.Writing.{overwritten};
ghost use Rattle.format.specs.declared.settings.Settings.{Settings};
ghost use Rattle.format.specs.declared.records.Description.{Description};
ghost use Rattle.places.specs.Walks.{RoleBytes, names_of};
ghost use Rattle.removal.specs.Taking.{closed};
ghost use Rattle.removing.specs.Removed.{Removed};
ghost use Rattle.removing.specs.Judging.{TellsNames, Standing, TellsNamed, Closable, Judges};

use format::answers::{Refusal, Rule};
use format::pins::Chip;
use format::settings::{Rules, Settings};
use walking::{Places, length_at, place_of};

// An element that goes: from its place so many bytes.
#[derive(Clone, Copy)]
struct Out {
    at: usize,
    len: usize,
}

// Takes element k out of the lent table: 0 with the new length; the bytes from there on stay as they are. The table's refusal, 17 at 0, or
// 22 at the element when something still names it; then no byte alters.
pub fn remove(table: &mut [u8], k: usize, chip: Chip) -> Result<usize, Refusal>
    ensures { Removed chip table.old k (told result) table.new }
{
    let out = judge(table, k, chip)?;
    Ok(close_up(table, out.at, out.len))
}

// Everything is decided before a byte is written.
fn judge(table: &[u8], k: usize, chip: Chip) -> Result<Out, Refusal>
    ensures { Judges chip table.now k (told result) }
{
    let settings = Settings {
        chip,
        rules: Rules::Ordinary,
    };
    let answer = reader::check(table, settings);
    let Ok(n) = answer else {
        return Err(answer.unwrap_err());
    };
    if n <= k {
        return Err(Rule::PastTheLast.at(0));
    }
    let at = place_of(table, k);
    if still_named(table, at) {
        return Err(Rule::StillNamed.at(at));
    }
    let len = length_at(table, at);
    Ok(Out { at, len })
}

// Whether something names the element at a place: a zone descriptor and a string have their numbers at byte 3, and no other element has
// one.
fn still_named(t: &[u8], at: usize) -> bool
    requires { Standing t.now at }
    ensures { TellsNamed t.now at result }
{
    let id = t[at];
    if id == 11 {
        return any_names(t, true, t[at + 3]);
    }
    if id == 12 {
        let number = t[at + 3];
        return (number == t[4]) | any_names(t, false, number);
    }
    false
}

// Whether an element names the zone, or else the string, with this number.
fn any_names(t: &[u8], zone: bool, number: u8) -> bool
    requires { (σ : Settings) × (d : Description) × (rs : List Record) × Accepts σ t.now d rs }
    ensures { TellsNames t.now zone number result }
{
    for at in Places::of(t) {
        if names(t, at, zone, number) {
            return true;
        }
    }
    false
}

// The same of the element at a place. A string names nothing, a zone descriptor no zone; its string index stands at byte 4.
fn names(t: &[u8], at: usize, zone: bool, number: u8) -> bool
    requires { (x : Role) × RoleBytes t.now at x }
    ensures { (x : Role) → RoleBytes t.now at x → result ≡ among number (names_of zone x) }
{
    let id = t[at];
    if id == 12 {
        return false;
    }
    if id == 11 {
        return !zone & (number == t[at + 4]);
    }
    if zone {
        return number == t[at + 7];
    }
    number == t[at + 3]
}

// Without so many bytes at a place, and the length mended; gives the new length.
fn close_up(t: &mut [u8], at: usize, n: usize) -> usize
    requires { Closable t.old at n }
    ensures { (result ≡ length t.old - n) × (t.new ≡ closed t.old at n) }
{
    move_down(t, at, n);
    let m = t.len() - n;
    joining::put_length(t, m);
    m
}

// The bytes that stand behind so many at a place move down over them; the last bytes stay as they were.
fn move_down(t: &mut [u8], at: usize, n: usize)
    requires { at + n ≤ length t.old }
    ensures { t.new ≡ overwritten at (drop (at + n) t.old) t.old }
{
    t.copy_within(at + n.., at);
}
