// The three passes of salvage over what is kept: elements with an undeclared zone are left out, missing string indexes cleared, and
// elements whose claims clash left out, in that order. One loop for the three.
#![tactic(auto)]

ghost use Rattle.std.specs.Prelude.{◌≡◌, ◌+◌, ◌<◌, length};
ghost use Rattle.format.specs.Records.{Record};
ghost use Rattle.saving.specs.Saving.{At};
ghost use Rattle.fates.specs.Noted.{Keeps};
ghost use Rattle.sifting.specs.Stages.{JudgeIs, JudgeZone, JudgeString, JudgeClaim, Ready, Sifted};

use claiming::claims_of;
use claims::{Held, claim};
use fates::{Counts, Fate, Kept, Note, counted, settle};
use format::answers::Rule;
use format::pins::Chip;
use places::marked;
use walking::element_at;

// 13, 14 and 15.
#[derive(Clone, Copy)]
pub enum Stage {
    Zones,
    Strings,
    Pins,
}

// What becomes of an element, and what is claimed then by those that are kept.
#[derive(Clone, Copy)]
pub struct Judged {
    pub fate: Fate,
    pub held: Held,
}

// One pass over those that are held in `from`, judged against the numbers that are declared or against the pins that the kept ones claim.
pub fn sift(
    t: &[u8],
    stage: Stage,
    from: &[Kept],
    declared: &[bool; 256],
    first: Held,
    to: &mut [Kept; 96],
    log: &mut [Note; 1649],
    lines: usize,
    chip: Chip,
) -> Counts
    requires { Ready chip stage t.now from.now declared.now first log.old lines × (length to.old ≡ 96) }
    ensures { Sifted chip stage t.now from.now declared.now first log.old lines result
        to.new log.new }
{
    let mut c = counted(0, lines);
    let mut held = first;
    for kept in from {
        let r = judge(t, stage, *kept, declared, held, chip);
        c = settle(to, log, c, *kept, r.fate);
        held = r.held;
    }
    c
}

// One element.
fn judge(
    t: &[u8],
    stage: Stage,
    kept: Kept,
    declared: &[bool; 256],
    held: Held,
    chip: Chip,
) -> Judged
    requires { ((k : At Record) × Keeps chip t.now kept k) × (kept.place < 4096) }
    ensures { JudgeIs chip stage t.now kept declared.now held result }
{
    match stage {
        Stage::Zones => fated(by_zone(t, kept, declared, chip), held),
        Stage::Strings => fated(by_string(t, kept, declared, chip), held),
        Stage::Pins => by_claim(t, kept, held, chip),
    }
}

fn fated(fate: Fate, held: Held) -> Judged
    ensures { (result.fate ≡ fate) × (result.held ≡ held) }
{
    Judged { fate, held }
}

// 13
fn by_zone(t: &[u8], kept: Kept, declared: &[bool; 256], chip: Chip) -> Fate
    requires { (k : At Record) × Keeps chip t.now kept k }
    ensures { JudgeZone chip t.now kept declared.now result }
{
    if marked(t, usize::from(kept.place), declared, true) {
        Fate::Stays
    } else {
        Fate::Leaves(Rule::NoZone.number())
    }
}

// 14. An index that is cleared already is not missing.
fn by_string(t: &[u8], kept: Kept, declared: &[bool; 256], chip: Chip) -> Fate
    requires { (k : At Record) × Keeps chip t.now kept k }
    ensures { JudgeString chip t.now kept declared.now result }
{
    if kept.cleared {
        return Fate::Stays;
    }
    if marked(t, usize::from(kept.place), declared, false) {
        Fate::Stays
    } else {
        Fate::Mends
    }
}

// 15: one that clashes holds no pin.
fn by_claim(t: &[u8], kept: Kept, held: Held, chip: Chip) -> Judged
    requires { ((k : At Record) × Keeps chip t.now kept k) × (kept.place < 4096) }
    ensures { JudgeClaim chip t.now kept held result }
{
    let at = usize::from(kept.place);
    let e = element_at(t, at, chip);
    let next = claim(held, claims_of(e), at);
    if next.clash == 65536 {
        fated(Fate::Stays, next)
    } else {
        fated(Fate::Leaves(Rule::Clash.number()), held)
    }
}
