// The pass of salvage over the elements as they stand, until the reader would say 6 or 96 are kept: what breaks a rule of the pass is left
// out. The reader's own pass judges each, against those that are kept so far.
#![tactic(auto)]

ghost use Rattle.pass.specs.Steps.{stop_number};
ghost use Rattle.std.specs.Prelude.{◌≡◌, [], ◌≤◌, length};
ghost use Rattle.format.specs.Slots.{byte, Bytes};
ghost use Rattle.format.specs.Decode.{read_description};
ghost use Rattle.pass.specs.Tracks.{flags_of, Same, Tracks};
ghost use Rattle.scanning.specs.Scanned.{Scanned, FateOf};

use fates::{Counts, Fate, Kept, Note, counted, settle};
use format::answers::Rule;
use format::pins::Chip;
use format::settings::{Rules, Settings};
use pass::{Marks, State, walk};
use walking::length_at;

// How many are kept and how many changes there are; and the place of the first clash among the kept ones, 65,536 where there is none.
#[derive(Clone, Copy)]
pub struct Passage {
    pub n: Counts,
    pub clash: usize,
}

// All elements, from a state that stands for the description alone. An element that is kept stands at `end` in the new table so far.
pub fn scan(
    t: &[u8],
    start: State,
    kept: &mut [Kept; 96],
    log: &mut [Note; 1649],
    marks: &mut Marks,
    chip: Chip,
) -> Passage
    requires { (16 ≤ length t.now) × (length t.now ≤ 4096) × Bytes t.now
        × Tracks (read_description chip (byte t.now)) start (flags_of marks.old) [] × (length kept.old ≡ 96)
        × (length log.old ≡ 1649) }
    ensures scanned { Scanned chip t.now kept.new log.new (flags_of marks.new) result }
    ensures same_arrays { Same marks.old marks.new }
{
    let settings = Settings {
        chip,
        rules: Rules::Ordinary,
    };
    let mut n = counted(0, 0);
    let mut s = start;
    let mut end: usize = 16;
    let mut at: usize = 16;
    while at + 2 < t.len() {
        let len = length_at(t, at);
        let left = t.len() - at;
        if len < 3 {
            return summed(n, s);
        }
        if left < len {
            return summed(n, s);
        }
        if 96 <= n.kept {
            return summed(n, s);
        }
        let next = at + len;
        let r = walk(&t[at..next], end, s, marks, settings);
        let held = Kept {
            place: at as u16,
            cleared: false,
        };
        n = settle(kept, log, n, held, fate_of(r.stop));
        end += grown(r.stop, len);
        s = r.state;
        at = next;
    }
    summed(n, s)
}

fn summed(n: Counts, s: State) -> Passage
    ensures { (result.n ≡ n) × (result.clash ≡ s.held.clash) }
{
    let held = s.held;
    Passage {
        n,
        clash: held.clash,
    }
}

// What the pass's answer to one element makes of it.
fn fate_of(stop: Option<Rule>) -> Fate
    ensures { FateOf (stop_number stop) result }
{
    match stop {
        None => Fate::Stays,
        Some(rule) => Fate::Leaves(rule.number()),
    }
}

// By how much the new table grows.
fn grown(stop: Option<Rule>, len: usize) -> usize
    ensures { (stop_number stop ≡ 0 → result ≡ len) × ((stop_number stop ≡ 0 → ⊥) → result ≡ 0) × (result ≤ len) }
{
    match stop {
        None => len,
        Some(_) => 0,
    }
}
