// Two tables side by side: what differs between them, as text in a lent buffer.
#![tactic(auto)]

ghost use Rattle.comparing.specs.Outcomes.{which_number, outcome_of};
ghost use Rattle.std.specs.Prelude.{◌≡◌, ◌+◌, ◌≤◌, length};
ghost use Rattle.std.proofs.Math.Option.{Option};
ghost use Rattle.format.specs.Slots.{written};
ghost use Rattle.format.specs.Records.{Record};
ghost use Rattle.format.specs.Layout.{part};
ghost use Rattle.format.specs.declared.pins.Chip.{Chip};
ghost use Rattle.walking.specs.Walk.{Here};
ghost use Rattle.spelling.specs.Spelling.{Put};
ghost use Rattle.differing.specs.Compared.{archived};
ghost use Rattle.comparing.specs.Lines.{At, long, pair_text, besides_text, Compares};

mod lines;
mod rows;

use format::answers::Refusal;
use format::pins::Chip;
use format::settings::{Rules, Settings};
use lines::{put_fields, put_kind, put_part, put_rows};
use walking::{length_at, part_at};

// Which of the two tables.
#[derive(Clone, Copy)]
pub enum Which {
    First,
    Second,
}

// A table that is refused.
#[derive(Clone, Copy)]
pub struct RefusedTable {
    pub which: Which,
    pub refusal: Refusal,
}

impl Which {
    pub fn number(self) -> u8
        ensures { result ≡ which_number self }
    {
        match self {
            Which::First => 1,
            Which::Second => 2,
        }
    }
}

// Puts what differs between two tables at the front of the buffer. No text is longer than 59,016 bytes.
pub fn compare(
    one: &[u8],
    two: &[u8],
    out: &mut [u8; 65536],
    chip: Chip,
) -> Result<usize, RefusedTable>
    ensures { Compares chip one.now two.now out.old (outcome_of result) out.new }
{
    if let Err(refusal) = reader::check(one, archived(chip)) {
        let which = Which::First;
        return Err(RefusedTable { which, refusal });
    }
    if let Err(refusal) = reader::check(two, archived(chip)) {
        let which = Which::Second;
        return Err(RefusedTable { which, refusal });
    }
    let mut end = put_rows(out, 0, one, two, 0, 0, 5, 8);
    let mut a: usize = 16;
    let mut b: usize = 16;
    while (a < one.len()) | (b < two.len()) {
        end = put_next(out, end, one, two, a, b);
        a = after(one, a);
        b = after(two, b);
    }
    Ok(end)
}

// One chip for both tables, and the archive's rules.
fn archived(chip: Chip) -> Settings
    ensures { result ≡ archived chip }
{
    Settings {
        chip,
        rules: Rules::Archive,
    }
}

// The place behind the element at a place; at the end of the table the same.
fn after(t: &[u8], at: usize) -> usize
    requires { (c : Chip) × (x : Option Record) × At c t.now at x }
    ensures { (c : Chip) (x : Option Record) → At c t.now at x → result ≡ at + long x }
{
    if at < t.len() {
        return at + length_at(t, at);
    }
    at
}

// The lines of what stands at two places, one of which may be the end of its table.
fn put_next(out: &mut [u8], at: usize, one: &[u8], two: &[u8], a: usize, b: usize) -> usize
    requires { (c : Chip) × (x : Option Record) × (y : Option Record) × At c one.now a x × At c two.now b y × (a ≤ 4096)
        × (b ≤ 4096) × (at + length (besides_text one.now two.now a b x y) + 68 ≤ length out.old) }
    ensures { (c : Chip) (x y : Option Record) → At c one.now a x → At c two.now b y
        → Put out.old at (besides_text one.now two.now a b x y) result out.new }
{
    if a < one.len() {
        if b < two.len() {
            return put_pair(out, at, one, two, a, b);
        }
        return put_kind(out, at, Some(a), None, Some(one[a]), None);
    }
    if b < two.len() {
        return put_kind(out, at, None, Some(b), None, Some(two[b]));
    }
    at
}

// The lines of two elements.
fn put_pair(out: &mut [u8], at: usize, one: &[u8], two: &[u8], a: usize, b: usize) -> usize
    requires { (c : Chip) × (x : Record) × (y : Record) × Here c one.now a x × Here c two.now b y × (a ≤ 4096) × (b ≤ 4096)
        × (at + length (pair_text one.now two.now a b (written (part x)) (written (part y))) + 68 ≤ length out.old) }
    ensures { (c : Chip) (x y : Record) → Here c one.now a x → Here c two.now b y
        → Put out.old at (pair_text one.now two.now a b (written (part x)) (written (part y))) result
        out.new }
{
    let k = one[a];
    let l = two[b];
    if k == l {
        let e = put_fields(out, at, one, two, a, b, usize::from(k));
        return put_part(out, e, a, b, part_at(one, a), part_at(two, b));
    }
    put_kind(out, at, Some(a), Some(b), Some(k), Some(l))
}
