// Saving what can be saved of a damaged table, as one call, with the ordinary rules. Memory holds no record: of each element that is
// kept its old place, and of each change its place and its rule. Everything is decided before a byte is written.
#![tactic(auto)]

ghost use Rattle.saving.specs.Salvaged.{salvaged};
ghost use Rattle.std.specs.Prelude.{◌≡◌, true, ◌<◌, ◌≤◌, length};
ghost use Rattle.format.specs.Slots.{Bytes};
ghost use Rattle.format.specs.Claims.{made_at, first_claims};
ghost use Rattle.claims.specs.Taken.{HeldIs};
ghost use Rattle.saving.specs.Saving.{taken as taken_of, salvageable};
ghost use Rattle.pass.specs.Tracks.{flags_of};
ghost use Rattle.scanning.specs.Scanned.{Scanned};
ghost use Rattle.mending.specs.Laid.{Listed};
ghost use Rattle.salvaging.specs.Decided.{described, Decided, NotesFirst, Alone, Complete, Passed, PlanIs};
ghost use Rattle.salvaging.specs.Salvages.{Salvages};

use changes::put_lines;
use claims::Held;
use fates::{Counts, Kept, Note};
use flags::lacks;
use format::answers::{Refusal, Rule};
use format::pins::Chip;
use mending::{new_length, put_opening, put_table};
use pass::{Marks, State};
use saving::Lengths;
use scanning::{Passage, scan};
use sifting::{Stage, sift};

// How many are kept and how many lines there are, whether the description's string index is cleared, and the length of the new table.
#[derive(Clone, Copy)]
struct Plan {
    kept: usize,
    lines: usize,
    cleared: bool,
    len: usize,
}

// What stands in the two arrays at first.
const NOBODY: Kept = Kept {
    place: 0,
    cleared: false,
};

const NOTHING: Note = Note {
    place: 0,
    number: 0,
    cleared: false,
};

// The new table at the front of `out` and the text of the lines at the front of `lines`, with both lengths; or 24 at 0, or 16 at 0 where
// the table does not fit. With a refusal no byte of the two alters. Only the first 4,096 bytes of the file are looked at.
pub fn salvage(
    file: &[u8],
    out: &mut [u8],
    lines: &mut [u8; 32768],
    chip: Chip,
) -> Result<Lengths, Refusal>
    ensures { Salvages chip file.now out.old lines.old (salvaged result) out.new lines.new }
{
    let t = taken(file);
    if !sound(t, chip) {
        return Err(Rule::Lost.at(0));
    }
    if alone(t) {
        if out.len() < 16 {
            return Err(Rule::NoRoom.at(0));
        }
        put_opening(t, false, 16, out, chip);
        return Ok(Lengths {
            table: 16,
            lines: 0,
        });
    }
    let mut kept = [NOBODY; 96];
    let mut log = [NOTHING; 1649];
    let plan = decide(t, &mut kept, &mut log, chip);
    if out.len() < plan.len {
        return Err(Rule::NoRoom.at(0));
    }
    put_table(t, &kept[..plan.kept], plan.cleared, plan.len, out, chip);
    let end = put_lines(&log[..plan.lines], lines);
    Ok(Lengths {
        table: plan.len,
        lines: end,
    })
}

// The first 4,096 bytes of a file.
fn taken(file: &[u8]) -> &[u8]
    ensures { result.now ≡ taken_of file.now }
{
    if file.len() <= 4096 {
        return file;
    }
    &file[0..4096]
}

// Whether the description is sound: 1, 2, 4, 5, 10, and its claims.
fn sound(t: &[u8], chip: Chip) -> bool
    ensures { result ≡ salvageable chip t.now }
{
    if t.len() < 16 {
        return false;
    }
    if t[0] != 1 {
        return false;
    }
    let d = fields::description(t, chip);
    if let Err(_) = rules::description_breaks(d, chip) {
        return false;
    }
    let held = claims::first_claims(d);
    held.clash == 65536
}

// Whether no element can stand behind the description and its string index is 0: then nothing is changed, and no array is laid out.
fn alone(t: &[u8]) -> bool
    requires { 16 ≤ length t.now }
    ensures { result ≡ true → Alone t.now }
{
    if 18 < t.len() {
        return false;
    }
    t[4] == 0
}

// What is kept and what is changed, of bytes with a sound description: the pass, then 13, 14 and 15, unless the pass shows that none of
// the three changes anything.
fn decide(t: &[u8], kept: &mut [Kept; 96], log: &mut [Note; 1649], chip: Chip) -> Plan
    requires { (length t.now ≤ 4096) × Bytes t.now × (salvageable chip t.now ≡ true) × (length kept.old ≡ 96)
        × (length log.old ≡ 1649) }
    ensures { Decided chip t.now result kept.new log.new }
{
    let held = claims::first_claims(fields::description(t, chip));
    let mut zs = [false; 256];
    let mut ss = [false; 256];
    let mut zu = [false; 256];
    let mut su = [false; 256];
    let mut marks = Marks {
        zones: &mut zs,
        strings: &mut ss,
        zone_uses: &mut zu,
        string_uses: &mut su,
    };
    let a = pass(t, held, kept, log, &mut marks, chip);
    marks.strings[0] = true;
    let n = a.n;
    if complete(&marks, a.clash) {
        return planned(t, &kept[..n.kept], n, false);
    }
    choose(t, held, kept, log, &marks, n, chip)
}

// Whether every number that is named is declared, and no claim clashes.
fn complete(marks: &Marks, clash: usize) -> bool
    ensures { result ≡ true → Complete marks.now.zones.now marks.now.strings.now marks.now.zone_uses.now
        marks.now.string_uses.now clash }
{
    if lacks(marks.zone_uses, marks.zones) {
        return false;
    }
    if lacks(marks.string_uses, marks.strings) {
        return false;
    }
    clash == 65536
}

// 13, 14 and 15, after the pass.
fn choose(
    t: &[u8],
    held: Held,
    kept: &mut [Kept; 96],
    log: &mut [Note; 1649],
    marks: &Marks,
    n: Counts,
    chip: Chip,
) -> Plan
    requires { (length t.now ≤ 4096) × (salvageable chip t.now ≡ true)
        × HeldIs held (made_at 0 (first_claims (described chip t.now)))
        × Passed chip t.now kept.old log.old marks.now.zones.now marks.now.strings.now n }
    ensures { Decided chip t.now result kept.new log.new }
{
    let mut one = [NOBODY; 96];
    let mut two = [NOBODY; 96];
    let a = sift(
        t,
        Stage::Zones,
        &kept[..n.kept],
        marks.zones,
        held,
        &mut one,
        log,
        n.lines,
        chip,
    );
    let index = usize::from(t[4]);
    let strings = &*marks.strings;
    let cleared = !strings[index];
    let lines = note_first(log, a.lines, cleared);
    let b = sift(
        t,
        Stage::Strings,
        &one[..a.kept],
        marks.strings,
        held,
        &mut two,
        log,
        lines,
        chip,
    );
    let c = sift(
        t,
        Stage::Pins,
        &two[..b.kept],
        marks.strings,
        held,
        kept,
        log,
        b.lines,
        chip,
    );
    planned(t, &kept[..c.kept], c, cleared)
}

// The plan of what is noted.
fn planned(t: &[u8], kept: &[Kept], n: Counts, cleared: bool) -> Plan
    requires { Listed t.now kept.now }
    ensures { PlanIs t.now kept.now n cleared result }
{
    Plan {
        kept: n.kept,
        lines: n.lines,
        cleared,
        len: new_length(t, kept),
    }
}

// The pass, from a state that stands for the description.
fn pass(
    t: &[u8],
    held: Held,
    kept: &mut [Kept; 96],
    log: &mut [Note; 1649],
    marks: &mut Marks,
    chip: Chip,
) -> Passage
    requires { (16 ≤ length t.now) × (length t.now ≤ 4096) × Bytes t.now
        × HeldIs held (made_at 0 (first_claims (described chip t.now))) × (length kept.old ≡ 96) × (length log.old ≡ 1649) }
    ensures { Scanned chip t.now kept.new log.new (flags_of marks.new) result }
{
    *marks.zones = [false; 256];
    *marks.strings = [false; 256];
    *marks.zone_uses = [false; 256];
    *marks.string_uses = [false; 256];
    let index = usize::from(t[4]);
    marks.string_uses[index] = true;
    let start = State {
        count: 0,
        zones: 0,
        held,
        last: 0,
    };
    scan(t, start, kept, log, marks, chip)
}

// The line of the description, whose place is 0.
fn note_first(log: &mut [Note; 1649], n: usize, cleared: bool) -> usize
    requires { n < 1649 }
    ensures { NotesFirst log.old n cleared result log.new }
{
    if cleared {
        log[n] = Note {
            place: 0,
            number: 14,
            cleared: true,
        };
        return n + 1;
    }
    n
}
