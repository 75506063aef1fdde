// A piece of a single byte that the element under way waits for, and that does not complete it: a few of the state's numbers change and the
// others stay where they are. One of them says up to which count no byte decides anything; until then a byte is only counted and kept.
// For speed alone (docs/BENCH.md): every other piece, and this one too, could go the general way (`advancing`).
#![tactic(auto)]

ghost use Rattle.std.specs.Prelude.{◌≡◌, not, [], ◌∷◌, ◌+◌, ◌/◌, ◌<◌, ◌≤◌, eqb};
ghost use Rattle.underway.specs.Under.{KeepIs};
ghost use Rattle.states.specs.Numbers.{number, way_of};
ghost use Rattle.single.specs.Single.{StaysIs, Marked, UnitIs, EntryIs, OneIs, puts, ByteIs};
ghost use Rattle.single.specs.Single.{NextIs, QuietTo, LengthenIs};

use blocks::Cut;
use underway::Under;

// With this byte the element under way is not whole yet: its header is not there, or gives a greater length.
fn stays(head: &[u8; 30], had: usize, x: u8) -> bool
    ensures { StaysIs head.now had x result }
{
    if had < 2 {
        return true;
    }
    if had == 2 {
        return 3 < usize::from(head[1]) + 256 * usize::from(x);
    }
    let told = usize::from(head[1]) + 256 * usize::from(head[2]);
    if told <= had {
        return false;
    }
    1 < told - had
}

// The byte says nothing of the part.
fn longer(u: Under) -> Under
    requires { u.len < 65536 }
    ensures { (result.len ≡ u.len + 1) × (result.at ≡ u.at) × (result.blocks ≡ u.blocks) × (result.mark ≡ u.mark) }
{
    Under {
        len: u.len + 1,
        at: u.at,
        blocks: u.blocks,
        mark: u.mark,
    }
}

// The mark of a text after a unit more, by its upper byte. One that is no surrogate changes nothing where all is good and none is open.
fn marked(mark: usize, x: u8) -> usize
    ensures { Marked mark x result }
{
    if (mark == 0) & (x / 8 != 27) {
        return 0;
    }
    let top = x / 4;
    underway::mark_of(
        (mark % 2 == 0) & rules::agrees(2 <= mark, top == 55),
        top == 54,
    )
}

// 0Ch: the second byte of a unit tells what it is. The text begins at byte 6.
fn unit_on(u: Under, x: u8) -> Under
    requires { u.len < 65536 }
    ensures { UnitIs u x result }
{
    if u.len < 6 {
        return Under {
            len: u.len + 1,
            at: 0,
            blocks: 0,
            mark: 0,
        };
    }
    if u.len % 2 == 0 {
        return longer(u);
    }
    Under {
        len: u.len + 1,
        at: u.at,
        blocks: u.blocks,
        mark: marked(u.mark, x),
    }
}

// 09h, 0Ah and 0Dh: it is an ENTRIES byte or not. Byte 12 is the first.
fn entry_on(u: Under, lead: usize, most: usize, x: u8) -> Under
    requires { (lead ≤ 1) × (1 ≤ most) × (most ≤ 6) × (u.len < 65536) }
    ensures { EntryIs u lead most x result }
{
    if u.len < 12 {
        return longer(u);
    }
    if u.len == 12 {
        let c = Cut {
            at: lead,
            full: true,
        };
        return entered(u.len, 0, blocks::enter(true, lead, x, c));
    }
    if u.len - (12 - lead) != u.at {
        return longer(u);
    }
    if most <= u.blocks {
        return longer(u);
    }
    let c = Cut {
        at: u.at,
        full: u.mark == 0,
    };
    entered(u.len, u.blocks, blocks::enter(true, lead, x, c))
}

// After one block more.
fn entered(had: usize, blocks: usize, c: Cut) -> Under
    requires { (had < 65536) × (blocks ≤ 6) }
    ensures { (result.len ≡ had + 1) × (result.at ≡ c.at) × (result.blocks ≡ blocks + 1) × (eqb result.mark 0 ≡ c.full) }
{
    Under {
        len: had + 1,
        at: c.at,
        blocks: blocks + 1,
        mark: underway::mark_of(c.full, false),
    }
}

// As `underway::more`, of one byte.
fn one_more(u: Under, x: u8, head: &mut [u8; 30]) -> Under
    requires { u.len < 65536 }
    ensures { OneIs u x head.old result head.new }
{
    keep_one(head, u.len, x);
    let id = head[0];
    if id == 12 {
        return unit_on(u, x);
    }
    let most = underway::most_of(id);
    if most == 0 {
        return underway::so_many(u.len + 1);
    }
    entry_on(u, underway::lead_of(id), most, x)
}

// One of the first 30 bytes; later ones are not kept.
fn keep_one(head: &mut [u8; 30], from: usize, x: u8)
    ensures { KeepIs from (x ∷ []) head.old head.new }
{
    if from < 30 {
        head[from] = x;
    }
}

fn under_of(n: &[usize; 16]) -> Under
    ensures { result ≡ (way_of n.now).under }
{
    Under {
        len: n[5],
        at: n[6],
        blocks: n[7],
        mark: n[8],
    }
}

fn put(n: &mut [usize; 16], count: usize, u: Under, quiet: usize)
    ensures { n.new ≡ puts n.old count u quiet }
{
    n[2] = count;
    n[5] = u.len;
    n[6] = u.at;
    n[7] = u.blocks;
    n[8] = u.mark;
    n[15] = quiet;
}

// The next byte of the element that may decide something, by its kind: in a text one after a unit that was bad or opened a pair, of
// blocks the next ENTRIES byte.
fn next_of(id: u8, u: Under) -> usize
    ensures { NextIs id u result }
{
    if id == 12 {
        return if u.mark == 0 { 65536 } else { 0 };
    }
    let most = underway::most_of(id);
    if most == 0 {
        return 65536;
    }
    if u.len <= 12 {
        return 12;
    }
    if most <= u.blocks {
        return 65536;
    }
    12 - underway::lead_of(id) + u.at % 65536
}

// The count up to which no byte decides anything, where it is ahead; the last byte of the element always does.
fn quiet_to(head: &[u8; 30], u: Under, count: usize) -> usize
    requires { count ≤ 4097 }
    ensures { QuietTo head.now u count result }
{
    if u.len < 3 {
        return 0;
    }
    let told = usize::from(head[1]) + 256 * usize::from(head[2]);
    if told <= u.len {
        return 0;
    }
    let end = (told - 1).min(next_of(head[0], u));
    if end <= u.len {
        return 0;
    }
    (count + (end - u.len)).min(4097)
}

// No upper byte of a surrogate.
pub fn plain(x: u8) -> bool
    ensures { result ≡ not (eqb (x / 8) 27) }
{
    x / 8 != 27
}

// A byte that decides nothing.
pub fn lengthen(n: &mut [usize; 16], head: &mut [u8; 30], count: usize, quiet: usize, x: u8)
    requires { count < quiet }
    ensures { LengthenIs n.old head.old count x n.new head.new }
{
    let had = n[5] % 65536;
    keep_one(head, had, x);
    n[2] = count + 1;
    n[5] = had + 1;
}

// Whether the byte is taken so; else nothing changes.
pub fn byte(n: &mut [usize; 16], head: &mut [u8; 30], x: u8) -> bool
    requires { (number n.old 2 ≤ 4096) × (number n.old 3 ≡ 0) }
    ensures { ByteIs n.old head.old x result n.new head.new }
{
    let count = n[2] + 1;
    let u = under_of(n);
    if !stays(head, u.len, x) {
        return false;
    }
    let r = one_more(u, x, head);
    let quiet = quiet_to(head, r, count);
    put(n, count, r, quiet);
    true
}
