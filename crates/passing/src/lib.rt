// The pass over the elements, piece by piece: the bytes of a piece complete the element under way, then come whole elements, and the
// rest begins one.
#![tactic(auto)]

ghost use Rattle.std.specs.Prelude.{◌≡◌, ◌+◌, ◌-◌, ◌*◌, ◌<◌, ◌≤◌, length};
ghost use Rattle.pass.specs.Tracks.{flags_of, Same, Low};
ghost use Rattle.naming.specs.Naming.{SamePlaces};
ghost use Rattle.passing.specs.Going.{ByteOf, ToldOf, DueIs, ResumeIs, AheadIs, TurnIs, PassIs};

use closing::{Ran, Way};
use format::settings::Settings;
use naming::Places;
use pass::{Marks, State};
use underway::Under;

// Byte k of the element under way, of which so many bytes are kept: it is one of those, or it stands in the piece.
fn byte_of(head: &[u8; 30], had: usize, p: &[u8], k: usize) -> u8
    requires { (k < 30) × (k < had + length p.now) }
    ensures { ByteOf head.now had p.now k result }
{
    if k < had {
        return head[k];
    }
    p[k - had]
}

// Two bytes, the low one first.
fn pair(low: u8, high: u8) -> usize
    ensures { result ≡ low + 256 * high }
{
    usize::from(low) + 256 * usize::from(high)
}

// The length that the element's header gives: the header stands in the piece, is kept, or a cut goes through it. (The first two are by
// far the most, and take one read: docs/BENCH.md.)
fn told_of(head: &[u8; 30], had: usize, p: &[u8]) -> usize
    requires { 3 ≤ had + length p.now }
    ensures { ToldOf head.now had p.now result }
{
    if had == 0 {
        return pair(p[1], p[2]);
    }
    if 3 <= had {
        return pair(head[1], head[2]);
    }
    pair(byte_of(head, had, p, 1), byte_of(head, had, p, 2))
}

// The length that the element's header gives, and how many bytes of the piece belong to it. Where the header is not there all do.
#[derive(Clone, Copy)]
pub struct Share {
    pub told: usize,
    pub take: usize,
}

fn due(head: &[u8; 30], had: usize, p: &[u8]) -> Share
    requires { had + length p.now ≤ 4097 }
    ensures { DueIs head.now had p.now result }
{
    let all = had + p.len();
    if all < 3 {
        return Share {
            told: 3,
            take: p.len(),
        };
    }
    let told = told_of(head, had, p);
    if all < told {
        return Share {
            told,
            take: p.len(),
        };
    }
    if told <= had {
        return Share {
            told,
            take: p.len(),
        };
    }
    Share {
        told,
        take: told - had,
    }
}

// The element under way with the bytes of a piece: it waits for more, or it is whole, or its length is under 3.
fn resume(
    under: Under,
    at: usize,
    s: State,
    p: &[u8],
    head: &mut [u8; 30],
    marks: &mut Marks,
    places: &mut Places,
    settings: Settings,
) -> Ran
    requires { (at + under.len + length p.now ≤ 4097) × (under.at ≤ 10000) × Low s }
    ensures turns { ResumeIs settings under at s p.now head.old
        (flags_of marks.old) places.old.zones.now places.old.strings.now result
        head.new (flags_of marks.new) places.new.zones.now places.new.strings.now }
    ensures same_places { SamePlaces places.old places.new }
    ensures same_arrays { Same marks.old marks.new }
{
    let had = under.len;
    let mine = due(head, had, p);
    if mine.told < 3 {
        return Ran {
            taken: p.len(),
            way: closing::broken(6, at, s),
        };
    }
    let taken = mine.take;
    let u = underway::more(under, &p[0..taken], head);
    if u.len < mine.told {
        return Ran {
            taken,
            way: closing::going(at, u, s),
        };
    }
    Ran {
        taken,
        way: closing::close(u, head, at, s, marks, places, settings),
    }
}

// The whole elements at the start of a piece, where none is under way.
fn ahead(w: Way, p: &[u8], marks: &mut Marks, places: &mut Places, settings: Settings) -> Ran
    requires { (w.at + w.under.len + length p.now ≤ 4097) × (w.under.at ≤ 10000) × Low w.state }
    ensures turns { AheadIs settings w p.now (flags_of marks.old)
        places.old.zones.now places.old.strings.now result (flags_of marks.new) places.new.zones.now places.new.strings.now }
    ensures same_places { SamePlaces places.old places.new }
    ensures same_arrays { Same marks.old marks.new }
{
    let under = w.under;
    if under.len != 0 {
        return Ran { taken: 0, way: w };
    }
    let s = w.state;
    closing::front(p, w.at, s, marks, places, settings)
}

// Whole elements, and then the one under way, or that the rest begins.
fn turn(
    w: Way,
    p: &[u8],
    head: &mut [u8; 30],
    marks: &mut Marks,
    places: &mut Places,
    settings: Settings,
) -> Ran
    requires { (w.at + w.under.len + length p.now ≤ 4097) × (w.under.at ≤ 10000) × Low w.state }
    ensures turns { TurnIs settings w p.now head.old
        (flags_of marks.old) places.old.zones.now places.old.strings.now result
        head.new (flags_of marks.new) places.new.zones.now places.new.strings.now }
    ensures same_places { SamePlaces places.old places.new }
    ensures same_arrays { Same marks.old marks.new }
{
    let r = ahead(w, p, marks, places, settings);
    let way = r.way;
    let from = r.taken;
    if way.stop != 0 {
        return Ran {
            taken: p.len(),
            way,
        };
    }
    if p.len() <= from {
        return r;
    }
    let under = way.under;
    let s = way.state;
    let q = resume(under, way.at, s, &p[from..], head, marks, places, settings);
    let then = q.way;
    Ran {
        taken: from + q.taken,
        way: then,
    }
}

// A piece of at least one byte. There are two turns at most: one completes the element under way, one begins the next.
pub fn pass_on(
    w: Way,
    p: &[u8],
    head: &mut [u8; 30],
    marks: &mut Marks,
    places: &mut Places,
    settings: Settings,
) -> Way
    requires { (w.at + w.under.len + length p.now ≤ 4097) × (w.under.at ≤ 10000) × Low w.state }
    ensures passes { PassIs settings w p.now head.old
        (flags_of marks.old) places.old.zones.now places.old.strings.now result
        head.new (flags_of marks.new) places.new.zones.now places.new.strings.now }
    ensures same_places { SamePlaces places.old places.new }
    ensures same_arrays { Same marks.old marks.new }
{
    let mut way = w;
    let mut from: usize = 0;
    while (way.stop == 0) & (from < p.len()) {
        let r = turn(way, &p[from..], head, marks, places, settings);
        way = r.way;
        from += r.taken;
    }
    way
}
