// What can be saved of a damaged table (14/14). Definitions stand in specs/, theorems in proofs/; no running code.
// specs/  Saving: what is kept, and the lines; Lines: their text, the new table, the answer; Known: damaged tables worked out by hand;
//         Repairing: the same as putting right what the reader names first, again and again.
// proofs/ Theorems: the output is always accepted, an accepted table comes out as it is written, 24 exactly where it is due; Kept: what
//         is kept is a part of what stood there; Bounds, Texts: how much there can be; Answers: the known tables; Repaired: the repair
//         comes to the same; Once: no two results of salvage say the same. Below them Sifting, Standing, Reading, Choosing, Clearing,
//         Alike, Mending, Keeping, Whole; First, Stages, Passing.
#![tactic(auto)]

// What salvage writes: the length of the new table, and that of the text of its lines.
#[derive(Clone, Copy)]
pub struct Lengths {
    pub table: usize,
    pub lines: usize,
}
