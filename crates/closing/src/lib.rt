// Whole elements, in a piece or after a cut: what the pass comes to after them.
#![tactic(auto)]

ghost use Rattle.std.specs.Prelude.{◌≡◌, true, false, ◌+◌, ◌≤◌, ◌<◌, length};
ghost use Rattle.found.specs.Judged.{finding};
ghost use Rattle.pass.specs.Steps.{stop_number};
ghost use Rattle.format.specs.Verdict.{known};
ghost use Rattle.pass.specs.Tracks.{flags_of, Same, Low, Room};
ghost use Rattle.stream.specs.Running.{unready};
ghost use Rattle.naming.specs.Naming.{SamePlaces};
ghost use Rattle.closing.specs.Ways.{WholeIs, FixedIs, TextClosed, DeviceClosed, CloseIs};

use format::answers::Rule;
use format::settings::Settings;
use found::Found;
use naming::Places;
use pass::{Marks, State};
use underway::Under;

// Where the pass is: the rule that stopped it, or 0, and its place; or the place of the element under way, what is held of it, and
// what the elements before have left.
#[derive(Clone, Copy)]
pub struct Way {
    pub stop: usize,
    pub at: usize,
    pub under: Under,
    pub state: State,
}

// The same, and how many bytes of a piece are taken.
#[derive(Clone, Copy)]
pub struct Ran {
    pub taken: usize,
    pub way: Way,
}

pub fn going(at: usize, under: Under, state: State) -> Way
    ensures { (result.stop ≡ 0) × (result.at ≡ at) × (result.under ≡ under) × (result.state ≡ state) }
{
    Way {
        stop: 0,
        at,
        under,
        state,
    }
}

// The pass at a place with no element under way: a rule stopped it, or 0.
pub fn broken(stop: u8, at: usize, state: State) -> Way
    ensures { (result.stop ≡ stop) × (result.at ≡ at) × (result.under.len ≡ 0) × (result.under.at ≡ 0) × (result.state ≡ state) }
{
    Way {
        stop: usize::from(stop),
        at,
        under: underway::so_many(0),
        state,
    }
}

// The number of the rule that stopped a pass, or 0.
fn stop_of(stop: Option<Rule>) -> u8
    ensures { result ≡ stop_number stop }
{
    match stop {
        None => 0,
        Some(rule) => rule.number(),
    }
}

// The whole elements at the start of some bytes, and what they name.
fn whole(
    p: &[u8],
    at: usize,
    s: State,
    marks: &mut Marks,
    places: &mut Places,
    settings: Settings,
) -> Ran
    requires { (at + length p.now ≤ 4097) × Low s }
    ensures elements { WholeIs settings p.now at s
        (flags_of marks.old) places.old.zones.now places.old.strings.now result
        (flags_of marks.new) places.new.zones.now places.new.strings.now }
    ensures same_places { SamePlaces places.old places.new }
    ensures same_arrays { Same marks.old marks.new }
{
    let r = pass::walk(p, at, s, marks, settings);
    let state = r.state;
    let stop = stop_of(r.stop);
    if (stop != 0) & (stop != 6) {
        return Ran {
            taken: p.len(),
            way: broken(stop, r.place, state),
        };
    }
    let taken = r.place - at;
    naming::name_all(p, taken, at, places);
    Ran {
        taken,
        way: broken(0, r.place, state),
    }
}

// No whole element begins these bytes: the header is not there, or gives a length that is not reached.
fn waits(p: &[u8]) -> bool
    ensures { result ≡ unready p.now }
{
    if p.len() < 3 {
        return true;
    }
    p.len() < usize::from(p[1]) + 256 * usize::from(p[2])
}

// The whole elements at the start of a piece. Often there is none, which is seen before the walk.
pub fn front(
    p: &[u8],
    at: usize,
    s: State,
    marks: &mut Marks,
    places: &mut Places,
    settings: Settings,
) -> Ran
    requires { (at + length p.now ≤ 4097) × Low s }
    ensures elements { WholeIs settings p.now at s
        (flags_of marks.old) places.old.zones.now places.old.strings.now result
        (flags_of marks.new) places.new.zones.now places.new.strings.now }
    ensures same_places { SamePlaces places.old places.new }
    ensures same_arrays { Same marks.old marks.new }
{
    if waits(p) {
        return Ran {
            taken: 0,
            way: broken(0, at, s),
        };
    }
    whole(p, at, s, marks, places, settings)
}

// One whole element of a kind without a part, from the bytes that are kept.
fn fixed(
    p: &[u8],
    at: usize,
    s: State,
    marks: &mut Marks,
    places: &mut Places,
    settings: Settings,
) -> Way
    requires { (at + length p.now ≤ 4097) × Low s }
    ensures closes { FixedIs settings p.now at s
        (flags_of marks.old) places.old.zones.now places.old.strings.now result
        (flags_of marks.new) places.new.zones.now places.new.strings.now }
    ensures same_places { SamePlaces places.old places.new }
    ensures same_arrays { Same marks.old marks.new }
{
    let r = pass::walk(p, at, s, marks, settings);
    let state = r.state;
    if let Some(rule) = r.stop {
        return broken(rule.number(), at, state);
    }
    naming::name_all(p, r.place - at, at, places);
    broken(0, r.place, state)
}

// 0Ch
fn text(u: Under, head: &[u8; 30], at: usize, s: State, ss: &mut [bool; 256]) -> Way
    requires { (at + u.len ≤ 4097) × Room s }
    ensures { TextClosed u head.now at s ss.old result ss.new }
{
    match pass::text_judged(judging::text(u, head), judging::number(u, head), s, ss) {
        Err(rule) => broken(rule.number(), at, s),
        Ok(state) => broken(0, at + u.len, state),
    }
}

// 09h, 0Ah and 0Dh, from what is found of them.
fn device(
    id: u8,
    found: Result<Found, Rule>,
    u: Under,
    head: &[u8; 30],
    at: usize,
    s: State,
    zu: &mut [bool; 256],
    su: &mut [bool; 256],
    places: &mut Places,
) -> Way
    requires { (at + u.len ≤ 4097) × Room s }
    ensures closes { DeviceClosed id (finding found) u head.now at s
        zu.old su.old places.old.zones.now places.old.strings.now result
        zu.new su.new places.new.zones.now places.new.strings.now }
    ensures same_places { SamePlaces places.old places.new }
{
    let h = &head[..];
    match pass::placed_step(found, &h[3..30], at, s, zu, su) {
        Err(rule) => broken(rule.number(), at, s),
        Ok(state) => {
            naming::name(id, &h[3..30], at, places);
            broken(0, at + u.len, state)
        }
    }
}

// An element of more than 30 bytes that has no part: 8, or 7 where there is no such kind.
fn too_long(id: u8) -> u8
    ensures { (known id ≡ true → result ≡ 8) × (known id ≡ false → result ≡ 7) }
{
    match id {
        1 => 8,
        2 => 8,
        3 => 8,
        4 => 8,
        5 => 8,
        6 => 8,
        7 => 8,
        8 => 8,
        9 => 8,
        10 => 8,
        11 => 8,
        12 => 8,
        13 => 8,
        14 => 8,
        _ => 7,
    }
}

// An element that a cut went through, once it is whole.
pub fn close(
    u: Under,
    head: &[u8; 30],
    at: usize,
    s: State,
    marks: &mut Marks,
    places: &mut Places,
    settings: Settings,
) -> Way
    requires { (at + u.len ≤ 4097) × (u.at ≤ 10000) × Low s }
    ensures closes { CloseIs settings u head.now at s
        (flags_of marks.old) places.old.zones.now places.old.strings.now result
        (flags_of marks.new) places.new.zones.now places.new.strings.now }
    ensures same_places { SamePlaces places.old places.new }
    ensures same_arrays { Same marks.old marks.new }
{
    if 96 <= s.count {
        return broken(11, at, s);
    }
    let id = head[0];
    if id == 12 {
        return text(u, head, at, s, marks.strings);
    }
    if id == 9 {
        return device(
            id,
            judging::controller(u, head, settings),
            u,
            head,
            at,
            s,
            marks.zone_uses,
            marks.string_uses,
            places,
        );
    }
    if id == 10 {
        return device(
            id,
            judging::tachometer(u, head, settings),
            u,
            head,
            at,
            s,
            marks.zone_uses,
            marks.string_uses,
            places,
        );
    }
    if id == 13 {
        return device(
            id,
            judging::external(u, head, settings),
            u,
            head,
            at,
            s,
            marks.zone_uses,
            marks.string_uses,
            places,
        );
    }
    let len = u.len;
    if 30 < len {
        return broken(too_long(id), at, s);
    }
    let h = &head[..];
    fixed(&h[0..len], at, s, marks, places, settings)
}
