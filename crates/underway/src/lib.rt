// The element under way, that a cut goes through: of its bytes the first 30 at most, their number, and of its part where the next
// ENTRIES byte would stand or how far its text has come. The bytes of a piece take it on in one go.
#![tactic(auto)]

ghost use Rattle.std.specs.Prelude.{◌≡◌, ◌+◌, ◌*◌, ◌<◌, ◌≤◌, length, eqb};
ghost use Rattle.underway.specs.Under.{mark_of, most_of, lead_of, KeepIs, UnitsFrom, UnitsOn, TextOn, BlocksFrom, BlocksOn, CutOn};
ghost use Rattle.underway.specs.Under.{RoomIs, CopiedIs, eight_at, MoreIs};

use blocks::Cut;

// The number of bytes; of blocks where the next ENTRIES byte would stand in the part, and how many there are; and a mark. Of blocks it
// is 0 where each has a pair. Of a text it is even where the whole units are good, and 2 or more where the last is a high surrogate.
#[derive(Clone, Copy)]
pub struct Under {
    pub len: usize,
    pub at: usize,
    pub blocks: usize,
    pub mark: usize,
}

// So many bytes of a part without blocks and text.
pub fn so_many(len: usize) -> Under
    ensures { (result.len ≡ len) × (result.at ≡ 0) }
{
    Under {
        len,
        at: 0,
        blocks: 0,
        mark: 0,
    }
}

pub fn mark_of(good: bool, high: bool) -> usize
    ensures { result ≡ mark_of good high }
{
    if good {
        return if high { 2 } else { 0 };
    }
    if high { 3 } else { 1 }
}

// How many bytes of a piece are among the first 30.
fn room(from: usize, size: usize) -> usize
    ensures { RoomIs from size result }
{
    if 30 <= from {
        return 0;
    }
    let left = 30 - from;
    if left < size { left } else { size }
}

// So many of them, one by one.
fn each(head: &mut [u8; 30], from: usize, p: &[u8], end: usize)
    requires { (end ≤ length p.now) × (0 < end → from + end ≤ 30) }
    ensures { CopiedIs from 0 end p.now head.old head.new }
{
    for j in 0..end {
        head[from + j] = p[j];
    }
}

// Eight of them, all read before one is written, so that they go through one register.
fn eight(head: &mut [u8; 30], to: usize, p: &[u8], from: usize)
    requires { (to + 8 ≤ 30) × (from + 8 ≤ length p.now) }
    ensures { head.new ≡ eight_at to from p.now head.old }
{
    let a = p[from];
    let b = p[from + 1];
    let c = p[from + 2];
    let d = p[from + 3];
    let e = p[from + 4];
    let f = p[from + 5];
    let g = p[from + 6];
    let h = p[from + 7];
    head[to] = a;
    head[to + 1] = b;
    head[to + 2] = c;
    head[to + 3] = d;
    head[to + 4] = e;
    head[to + 5] = f;
    head[to + 6] = g;
    head[to + 7] = h;
}

// The bytes of a piece among the first 30, by eights that overlap; later ones are not kept.
fn keep(head: &mut [u8; 30], from: usize, p: &[u8])
    requires { from + length p.now ≤ 4097 }
    ensures { KeepIs from p.now head.old head.new }
{
    let end = room(from, p.len());
    if end < 8 {
        each(head, from, p, end);
        return;
    }
    eight(head, from, p, 0);
    if end <= 16 {
        eight(head, from + (end - 8), p, end - 8);
        return;
    }
    eight(head, from + 8, p, 8);
    eight(head, from + (end - 16), p, end - 16);
    eight(head, from + (end - 8), p, end - 8);
}

// The same for the description, whose pieces are few: `keep` has one caller, and so stays no call (docs/BENCH.md).
pub fn keep_each(head: &mut [u8; 30], from: usize, p: &[u8])
    requires { from + length p.now ≤ 4097 }
    ensures { KeepIs from p.now head.old head.new }
{
    let end = room(from, p.len());
    each(head, from, p, end);
}

// Of a text: how many units are whole, whether they are good, and whether the last is a high surrogate.
#[derive(Clone, Copy)]
pub struct Units {
    pub whole: usize,
    pub good: bool,
    pub high: bool,
}

// Those of the bytes that are there. The text begins at byte 6.
fn units_from(u: Under) -> Units
    ensures { UnitsFrom u result }
{
    if u.len < 6 {
        return Units {
            whole: 0,
            good: true,
            high: false,
        };
    }
    Units {
        whole: (u.len - 6) / 2,
        good: u.mark % 2 == 0,
        high: 2 <= u.mark,
    }
}

// The upper six bits of the unit before, where it is a high surrogate or not.
fn top_of(high: bool) -> u8
    ensures { eqb result 54 ≡ high }
{
    if high { 54 } else { 0 }
}

// The units that the bytes complete: the second byte of a unit tells what it is. (The upper bits of the last unit, and not what they
// say of it, go from turn to turn: a pair of flags would go through one register of the processor, docs/BENCH.md.)
fn units_on(t: Units, had: usize, p: &[u8], end: usize) -> usize
    requires { (had ≤ 7 + 2 * t.whole) × (6 + 2 * end ≤ had + length p.now) × (had + length p.now ≤ 4097) }
    ensures { UnitsOn t had p.now end result }
{
    let mut good = t.good;
    let mut last = top_of(t.high);
    for k in t.whole..end {
        let top = p[7 + 2 * k - had] / 4;
        good = good & rules::agrees(last == 54, top == 55);
        last = top;
    }
    mark_of(good, last == 54)
}

// 0Ch, with the bytes of a piece.
fn text_on(u: Under, p: &[u8]) -> Under
    requires { u.len + length p.now ≤ 4097 }
    ensures { TextOn u p.now result }
{
    let len = u.len + p.len();
    if len < 6 {
        return so_many(len);
    }
    let mark = units_on(units_from(u), u.len, p, (len - 6) / 2);
    Under {
        len,
        at: 0,
        blocks: 0,
        mark,
    }
}

// Of blocks: where the next ENTRIES byte would stand in the part, how many there are, and whether each has a pair.
#[derive(Clone, Copy)]
pub struct Blocks {
    pub at: usize,
    pub number: usize,
    pub full: bool,
}

// Those of the bytes that are there. In each kind byte 12 is the first ENTRIES byte.
fn blocks_from(u: Under, lead: usize) -> Blocks
    ensures { BlocksFrom u lead result }
{
    if u.len <= 12 {
        return Blocks {
            at: lead,
            number: 0,
            full: true,
        };
    }
    Blocks {
        at: u.at,
        number: u.blocks,
        full: u.mark == 0,
    }
}

// From ENTRIES byte to ENTRIES byte of a piece; the part begins at byte 12 or, where a byte stands before each, at 11.
fn blocks_on(b: Blocks, lead: usize, most: usize, had: usize, p: &[u8]) -> Blocks
    requires { (lead ≤ 1) × (most ≤ 6) × (b.at ≤ 10000) × (12 < had + length p.now) × (had + length p.now ≤ 4097) }
    ensures { BlocksOn b lead most had p.now result }
{
    let from = 12 - lead;
    let total = had + p.len() - from;
    let mut c = Cut {
        at: b.at,
        full: b.full,
    };
    let mut n = b.number;
    while (n < most) & ((c.at < total) & (had <= from + c.at)) {
        c = blocks::enter(true, lead, p[from + c.at - had], c);
        n += 1;
    }
    Blocks {
        at: c.at,
        number: n,
        full: c.full,
    }
}

// 09h, 0Ah and 0Dh, with the bytes of a piece.
fn cut_on(u: Under, lead: usize, most: usize, p: &[u8]) -> Under
    requires { (lead ≤ 1) × (most ≤ 6) × (u.at ≤ 10000) × (u.len + length p.now ≤ 4097) }
    ensures { CutOn u lead most p.now result }
{
    let len = u.len + p.len();
    if len <= 12 {
        return so_many(len);
    }
    let b = blocks_on(blocks_from(u, lead), lead, most, u.len, p);
    Under {
        len,
        at: b.at,
        blocks: b.number,
        mark: mark_of(b.full, false),
    }
}

// How many blocks a kind has at most; 0 where it has none.
pub fn most_of(id: u8) -> usize
    ensures { (result ≡ most_of id) × (result ≤ 6) }
{
    if id == 9 {
        return 6;
    }
    if id == 10 {
        return 2;
    }
    if id == 13 { 3 } else { 0 }
}

// How many bytes stand before each ENTRIES byte: in 09h SPEED.
pub fn lead_of(id: u8) -> usize
    ensures { (result ≡ lead_of id) × (result ≤ 1) }
{
    if id == 9 { 1 } else { 0 }
}

// The bytes of a piece that belong to the element.
pub fn more(u: Under, p: &[u8], head: &mut [u8; 30]) -> Under
    requires { (u.at ≤ 10000) × (u.len + length p.now ≤ 4097) }
    ensures { MoreIs u p.now head.old result head.new }
{
    keep(head, u.len, p);
    let id = head[0];
    if id == 12 {
        return text_on(u, p);
    }
    let most = most_of(id);
    if most != 0 {
        return cut_on(u, lead_of(id), most, p);
    }
    so_many(u.len + p.len())
}
