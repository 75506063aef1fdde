// The new table of salvage in a lent buffer: the description and what is kept, copied as it stands; then reserved places at zero, cleared
// string indexes at 0.
#![tactic(auto)]

ghost use Rattle.std.specs.Prelude.{◌≡◌, cond, ◌+◌, ◌<◌, ◌≤◌, length};
ghost use Rattle.format.specs.Slots.{byte, Bytes};
ghost use Rattle.reserved.specs.Zeroed.{reach};
ghost use Rattle.mending.specs.Laid.{cleared_at, tidied, Listed, LengthIs, RunIs, Copyable, Copied, Tidies};
ghost use Rattle.mending.specs.Laid.{Fitting, PutsOpening, PutsTable};

use fates::Kept;
use format::pins::Chip;
use joining::put_length;
use laying::{copy_into, put_description};
use reserved::clear_reserved;
use walking::length_at;

// How long the table of what is kept is.
pub fn new_length(t: &[u8], kept: &[Kept]) -> usize
    requires { Listed t.now kept.now }
    ensures { LengthIs t.now kept.now result }
{
    let mut end = 16;
    for held in kept {
        end += length_at(t, usize::from(held.place));
    }
    end
}

// The table of what is kept, which is so long, at the front of the buffer; the description's string index cleared or not.
pub fn put_table(t: &[u8], kept: &[Kept], cleared: bool, len: usize, out: &mut [u8], chip: Chip)
    requires { Fitting chip t.now kept.now len out.old }
    ensures { PutsTable chip t.now kept.now cleared len out.old out.new }
{
    put_opening(t, cleared, len, out, chip);
    copy_kept(t, kept, out);
    tidy_kept(t, kept, out);
}

// Elements of the old table that are kept and stand end to end: where they end, and which comes next.
#[derive(Clone, Copy)]
struct Run {
    to: usize,
    next: usize,
}

// The run from the i-th on. What stands end to end is copied at once, which takes less than a copy of each (docs/BENCH.md).
fn run_from(t: &[u8], kept: &[Kept], i: usize) -> Run
    requires { Listed t.now kept.now × (i < length kept.now) }
    ensures { RunIs t.now kept.now i result }
{
    let from = usize::from(kept[i].place);
    let mut to = from + length_at(t, from);
    for j in i + 1..kept.len() {
        if usize::from(kept[j].place) != to {
            return Run { to, next: j };
        }
        to += length_at(t, to);
    }
    Run {
        to,
        next: kept.len(),
    }
}

// The bytes of what is kept as they stand, from place 16 on. The index goes on by whole runs.
fn copy_kept(t: &[u8], kept: &[Kept], out: &mut [u8])
    requires { Copyable t.now kept.now out.old }
    ensures { Copied t.now kept.now out.old out.new }
{
    let mut end = 16;
    let mut i = 0;
    while i < kept.len() {
        let from = usize::from(kept[i].place);
        let run = run_from(t, kept, i);
        let to = run.to;
        copy_into(out, end, &t[from..to]);
        end += to - from;
        i = run.next;
    }
}

// Their reserved places at zero, and the string indexes that are cleared.
fn tidy_kept(t: &[u8], kept: &[Kept], out: &mut [u8])
    requires { Copyable t.now kept.now out.old }
    ensures { Tidies t.now kept.now out.old out.new }
{
    let mut end = 16;
    for held in kept {
        let from = usize::from(held.place);
        tidy(out, end, t[from], held.cleared);
        end += length_at(t, from);
    }
}

// The description, in a table of so many bytes.
pub fn put_opening(t: &[u8], cleared: bool, len: usize, out: &mut [u8], chip: Chip)
    requires { (16 ≤ length t.now) × Bytes t.now × (byte t.now 0 ≡ 1) × (16 ≤ length out.old) × (len ≤ 4096) }
    ensures { PutsOpening chip t.now cleared len out.old out.new }
{
    put_description(out, fields::description(t, chip));
    put_length(out, len);
    if cleared {
        out[4] = 0;
    }
}

// One element.
fn tidy(out: &mut [u8], at: usize, id: u8, cleared: bool)
    requires { (at + reach id ≤ length out.old) × (at + 5 ≤ length out.old) }
    ensures { out.new ≡ tidied id cleared at out.old }
{
    clear_reserved(out, at, id);
    mend_index(out, at, id, cleared);
}

// The string index of the element at a place, which is cleared or not.
fn mend_index(out: &mut [u8], at: usize, id: u8, cleared: bool)
    requires { at + 5 ≤ length out.old }
    ensures { out.new ≡ cond cleared (cleared_at id at out.old) out.old }
{
    if cleared {
        clear_index(out, at, id);
    }
}

// It is cleared, by the element's identifier: a zone descriptor has it at byte 4, a string has none.
fn clear_index(out: &mut [u8], at: usize, id: u8)
    requires { at + 5 ≤ length out.old }
    ensures { out.new ≡ cleared_at id at out.old }
{
    if id == 11 {
        out[at + 4] = 0;
        return;
    }
    if id == 12 {
        return;
    }
    out[at + 3] = 0;
}
