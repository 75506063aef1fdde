// The pass over the elements from offset 16: 6, the 97th (11), 7, 8, 9, 23, 10 (its own pins, then the fan list), the 13th zone (11),
// 12. Which numbers have been seen and which are named is kept for all 256 numbers, in flags that are lent.
#![tactic(auto)]

ghost use Rattle.std.specs.Prelude.{◌≡◌, Bool, not, List, ℕ, ◌+◌, ◌<◌, ◌≤◌, length, ltb};
ghost use Rattle.format.specs.Slots.{byte};
ghost use Rattle.format.specs.Records.{zone, string};
ghost use Rattle.format.specs.declared.settings.Settings.{Settings};
ghost use Rattle.format.specs.FanList.{comes_after, last_pin};
ghost use Rattle.rules.specs.Broken.{or_else};
ghost use Rattle.found.specs.Judged.{FansAre};
ghost use Rattle.format.specs.Answers.{fault_of};
ghost use Rattle.found.specs.Judged.{finding_by};
ghost use Rattle.pass.specs.Steps.{fault_by, stepped, stepped_by, moved, over};
ghost use Rattle.pass.specs.Tracks.{flags, flags_of, Same, Low, Room, StepIs, TextJudged, PlacedStep, TakeIs, MoveIs, WalkIs};

pub mod stops;

use crate::stops::Stops;
use claims::Held;
use format::answers::Rule;
use format::settings::Settings;
use found::{Fans, Found};

// The flags of all 256 numbers, as they are lent: the zone and string numbers that are declared, and those that are named.
#[derive(Drop)]
pub struct Marks<'a> {
    pub zones: &'a mut [bool; 256],
    pub strings: &'a mut [bool; 256],
    pub zone_uses: &'a mut [bool; 256],
    pub string_uses: &'a mut [bool; 256],
}

// How many elements and zones there are so far, who claims which pins, and the last fan-list pin used; 0 where none is. (It is as
// wide as the counts: a state with unused bytes would go through memory in every step, docs/BENCH.md.)
#[derive(Clone, Copy)]
pub struct State {
    pub count: usize,
    pub zones: usize,
    pub held: Held,
    pub last: usize,
}

// An element that was stepped over: its length, and what is so far.
#[derive(Clone, Copy)]
pub struct Moved {
    pub len: usize,
    pub state: State,
}

// The whole pass: the rule that stopped it, if one did, where it ended, and what is so far.
#[derive(Clone, Copy)]
pub struct Passed {
    pub stop: Option<Rule>,
    pub place: usize,
    pub state: State,
}

// 11 and 12 of a zone descriptor.
fn zone_against(zones: usize, seen: bool) -> Result<(), Rule>
    ensures { fault_of result ≡ or_else (ltb zones 12) 11 (or_else (not seen) 12 0) }
{
    if 12 <= zones {
        return Err(Rule::TooMany);
    }
    if seen { Err(Rule::Twice) } else { Ok(()) }
}

// 0Bh
fn zone_step(b: &[u8], s: State, zs: &mut [bool; 256], su: &mut [bool; 256]) -> Result<State, Rule>
    requires { Room s }
    ensures { ((σ : Settings) (at : ℕ) (ss zu : List Bool)
        → StepIs σ (zone b.now) at s (flags zs.old ss zu su.old) (stepped s result)
        (flags zs.new ss zu su.new)) × Low (stepped s result).state }
{
    rules::zone_breaks(b)?;
    let z = usize::from(b[0]);
    zone_against(s.zones, zs[z])?;
    zs[z] = true;
    let t = usize::from(b[1]);
    su[t] = true;
    let held = s.held;
    Ok(State {
        count: s.count + 1,
        zones: s.zones + 1,
        held,
        last: s.last,
    })
}

// 0Ch, of which 8 and 9 are known, with 12 against those before
pub fn text_judged<E: Stops>(
    own: Result<(), E>,
    number: u8,
    s: State,
    ss: &mut [bool; 256],
) -> Result<State, E>
    requires { Room s }
    ensures { TextJudged (fault_by E.number_of own) number s ss.old (stepped_by E.number_of s result) ss.new }
{
    own?;
    let t = usize::from(number);
    if ss[t] {
        return Err(E::by(Rule::Twice));
    }
    ss[t] = true;
    let held = s.held;
    Ok(State {
        count: s.count + 1,
        zones: s.zones,
        held,
        last: s.last,
    })
}

// The first byte, 0 where there is none.
fn first(b: &[u8]) -> u8
    ensures { result ≡ byte b.now 0 }
{
    if b.len() == 0 {
        return 0;
    }
    b[0]
}

// 0Ch
fn text_step(b: &[u8], s: State, ss: &mut [bool; 256]) -> Result<State, Rule>
    requires { Room s }
    ensures { ((σ : Settings) (at : ℕ) (zs zu su : List Bool)
        → StepIs σ (string b.now) at s (flags zs ss.old zu su) (stepped s result) (flags zs ss.new zu su))
        × Low (stepped s result).state }
{
    text_judged(rules::text_breaks(b), first(b), s, ss)
}

// 10 of the fan list: the first pin of an element comes after the last one used.
fn follows(fans: Option<Fans>, last: usize) -> bool
    ensures { (ps : List ℕ) → FansAre fans ps → result ≡ comes_after last ps }
{
    match fans {
        None => true,
        Some(f) => last < usize::from(f.first),
    }
}

// The last one used then.
fn last_of(fans: Option<Fans>, last: usize) -> usize
    ensures { (ps : List ℕ) → FansAre fans ps → result ≡ last_pin last ps }
{
    match fans {
        None => last,
        Some(f) => usize::from(f.last),
    }
}

// An element that stands in a zone: its fault, or what it leaves.
pub fn placed_step<E: Stops>(
    found: Result<Found, E>,
    b: &[u8],
    at: usize,
    s: State,
    zu: &mut [bool; 256],
    su: &mut [bool; 256],
) -> Result<State, E>
    requires { Room s × (at < 65536) × ((finding_by E.number_of found).fault ≡ 0 → 5 ≤ length b.now) }
    ensures { PlacedStep (finding_by E.number_of found) b.now at s zu.old su.old
        (stepped_by E.number_of s result) zu.new su.new }
{
    let f = found?;
    let fans = f.fans;
    if !follows(fans, s.last) {
        return Err(E::by(Rule::Pin));
    }
    let z = usize::from(b[4]);
    zu[z] = true;
    let t = usize::from(b[0]);
    su[t] = true;
    let held = s.held;
    let claims = f.claims;
    Ok(State {
        count: s.count + 1,
        zones: s.zones,
        held: claims::claim(held, claims, at),
        last: last_of(fans, s.last),
    })
}

// An element by its identifier; 7 of one that is not in the list. Each kind has its own call of `placed_step`, so that the
// compiler lays it out for the pins that the kind claims (docs/BENCH.md).
fn take(
    id: u8,
    b: &[u8],
    at: usize,
    s: State,
    marks: &mut Marks,
    settings: Settings,
) -> Result<State, Rule>
    requires { Room s × (at < 65536) }
    ensures takes { TakeIs settings id b.now at s
        (flags_of marks.old) (stepped s result)
        (flags_of marks.new) }
    ensures same_arrays { Same marks.old marks.new }
{
    let zu = &mut *marks.zone_uses;
    let su = &mut *marks.string_uses;
    match id {
        1 => placed_step(found::digital_found(b, settings), b, at, s, zu, su),
        2 => placed_step(found::analogue_found(b, settings), b, at, s, zu, su),
        3 => placed_step(found::fan_found(b, settings), b, at, s, zu, su),
        4 => placed_step(found::led_found(b, settings), b, at, s, zu, su),
        5 => placed_step(found::water_found(b, settings), b, at, s, zu, su),
        6 => placed_step(found::fan_found(b, settings), b, at, s, zu, su),
        7 => placed_step(found::voltage_found(b, settings), b, at, s, zu, su),
        8 => placed_step(found::current_found(b, settings), b, at, s, zu, su),
        9 => placed_step(found::controller_found(b, settings), b, at, s, zu, su),
        10 => placed_step(found::tachometer_found(b, settings), b, at, s, zu, su),
        11 => zone_step(b, s, marks.zones, su),
        12 => text_step(b, s, marks.strings),
        13 => placed_step(found::external_found(b, settings), b, at, s, zu, su),
        14 => placed_step(found::rgb_found(b, settings), b, at, s, zu, su),
        _ => Err(Rule::Identifier),
    }
}

// What stands at a place of the bytes, where there is room for a header; `base` is the place of the first of them in the table.
fn one_step(
    t: &[u8],
    at: usize,
    base: usize,
    s: State,
    marks: &mut Marks,
    settings: Settings,
) -> Result<Moved, Rule>
    requires { (at + 2 < length t.now) × (base + length t.now ≤ 4097) × Low s }
    ensures moves { MoveIs settings t.now at base s
        (flags_of marks.old) (moved s result)
        (flags_of marks.new) }
    ensures same_arrays { Same marks.old marks.new }
{
    let left = t.len() - at;
    let len = usize::from(t[at + 1]) + 256 * usize::from(t[at + 2]);
    if len < 3 {
        return Err(Rule::ElementLength);
    }
    if left < len {
        return Err(Rule::ElementLength);
    }
    if 96 <= s.count {
        return Err(Rule::TooMany);
    }
    let from = at + 3;
    let next = at + len;
    let state = take(t[at], &t[from..next], base + at, s, marks, settings)?;
    Ok(Moved { len, state })
}

// All elements of some bytes, the first of which stands at the place `base` of the table. The loop ends where no header can stand: at
// the end, or 6.
pub fn walk(t: &[u8], base: usize, start: State, marks: &mut Marks, settings: Settings) -> Passed
    requires { (base + length t.now ≤ 4097) × Low start }
    ensures walks { WalkIs settings t.now base start
        (flags_of marks.old) (over result)
        (flags_of marks.new) }
    ensures same_arrays { Same marks.old marks.new }
{
    let mut s = start;
    let mut at: usize = 0;
    while at + 2 < t.len() {
        match one_step(t, at, base, s, marks, settings) {
            Err(rule) => {
                return Passed {
                    stop: Some(rule),
                    place: base + at,
                    state: s,
                };
            }
            Ok(m) => {
                s = m.state;
                at += m.len;
            }
        }
    }
    if at < t.len() {
        return Passed {
            stop: Some(Rule::ElementLength),
            place: base + at,
            state: s,
        };
    }
    Passed {
        stop: None,
        place: base + at,
        state: s,
    }
}
