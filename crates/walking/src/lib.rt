// The walk over the elements of a table whose acceptance is shown: how long the element at a place is, what it is, its part and
// where that starts, and the place of element k. Nothing is checked again.
#![tactic(auto)]

ghost use Rattle.std.specs.Prelude.{◌≡◌, ℕ, ◌+◌, ◌-◌, ◌<◌, length, drop};
ghost use Rattle.std.specs.Iterator.{at_most};
ghost use Rattle.format.specs.Slots.{written};
ghost use Rattle.format.specs.Records.{Record, element_of};
ghost use Rattle.format.specs.Layout.{fixed, part};
ghost use Rattle.format.specs.Verdict.{stated, Verdict};
ghost use Rattle.format.specs.declared.pins.Chip.{Chip};
ghost use Rattle.format.specs.declared.settings.Settings.{Settings};
ghost use Rattle.format.specs.Answers.{Gives as Accepted};
ghost use Rattle.walking.specs.Walk.{Here, Located};
ghost use Rattle.walking.specs.Division.{Divided};
ghost use Rattle.walking.specs.Steps.{GivesPlace};

use format::pins::Chip;
use format::records::Element;

// The length of the element at a place.
pub fn length_at(t: &[u8], at: usize) -> usize
    requires { at + 2 < length t.now }
    ensures { result ≡ stated (drop at t.now) }
{
    usize::from(t[at + 1]) + 256 * usize::from(t[at + 2])
}

// The places of the elements, one after the other up to the end of the bytes.
#[derive(Clone, Copy)]
pub struct Places<'a> {
    table: &'a [u8],
    at: usize,
}

impl<'a> Places<'a> {
    // Those of a table: the first element stands behind the description.
    pub fn of(table: &'a [u8]) -> Places<'a>
        requires { Divided table.now 16 }
        ensures { (result.table.now ≡ table.now) × (result.at ≡ 16) }
    {
        Places { table, at: 16 }
    }
}

impl<'a> Iterator for Places<'a> {
    type Item = usize;

    ghost can_next = { λ s. Divided s.table.now s.at };

    ghost next_gives = { GivesPlace };

    ghost remaining = { λ s. at_most (length s.table.now - s.at) };

    fn next(&mut self) -> Option<usize> {
        let at = self.at;
        if self.table.len() <= at {
            return None;
        }
        self.at += length_at(self.table, at);
        Some(at)
    }
}

// The element at a place, read from the bytes after its header.
pub fn element_at(t: &[u8], at: usize, chip: Chip) -> Element
    requires { (x : Record) × Here chip t.now at x }
    ensures { (x : Record) → Here chip t.now at x → result ≡ element_of x }
{
    let from = at + 3;
    let to = at + length_at(t, at);
    elements::element_of(t[at], &t[from..to], chip)
}

// Where its variable part starts: behind its fixed fields.
pub fn part_place(t: &[u8], at: usize) -> usize
    requires { (c : Chip) × (x : Record) × Here c t.now at x }
    ensures { (c : Chip) (x : Record) → Here c t.now at x → result ≡ at + 3 + length (fixed (element_of x)) }
{
    at + elements::part_start(t[at], length_at(t, at))
}

// The variable part, as that part of the table.
pub fn part_at(t: &[u8], at: usize) -> &[u8]
    requires { (c : Chip) × (x : Record) × Here c t.now at x }
    ensures { (c : Chip) (x : Record) → Here c t.now at x → result.now ≡ written (part x) }
{
    let from = part_place(t, at);
    let to = at + length_at(t, at);
    &t[from..to]
}

// The place of element k.
pub fn place_of(t: &[u8], k: usize) -> usize
    requires { (σ : Settings) × (n : ℕ) × Verdict σ t.now (Accepted n) × (k < n) }
    ensures { (σ : Settings) (n : ℕ) → Verdict σ t.now (Accepted n) → k < n → Located σ t.now k result }
{
    let mut at: usize = 16;
    for _ in 0..k {
        at += length_at(t, at);
    }
    at
}
