// The fields inside a variable part: the speed blocks of 09h, the two blocks of 0Ah, the three of 0Dh and their register pairs; the
// number and the string index of a zone descriptor, the number and the text of a string. A part is any bytes: of what does not stand
// whole in it the answer is `None`, a byte past its end is 0.
#![tactic(auto)]

ghost use Rattle.std.specs.Prelude.{◌≡◌, ◌+◌, ◌*◌, drop};
ghost use Rattle.format.specs.Slots.{byte};
ghost use Rattle.format.specs.Records.{zone_number, zone_string, string_number, text_of};
ghost use Rattle.parts.specs.Inside.{whole_list, after_list, list_at, pair_at, block_at, blocks_from, lists_from, block_in, pair_in, list_in};
ghost use Rattle.parts.specs.Inside.{list_pair_in, colour_in, colour_pair_in};

use format::records::RegisterPair;
use format::units::HundredRpm;
use words::word;

// The head of a speed block (000, Table 22): so many register pairs follow it.
#[derive(Clone, Copy)]
pub struct SpeedBlock {
    pub speed: HundredRpm,
    pub entries: u8,
}

// 09h: speed block j, from 0, the default block.
pub fn block(part: &[u8], j: usize) -> Option<SpeedBlock>
    ensures { result ≡ block_in part.now j }
{
    block_at(blocks_from(part, j))
}

// 09h: register pair i of speed block j.
pub fn pair(part: &[u8], j: usize, i: usize) -> Option<RegisterPair>
    ensures { result ≡ pair_in part.now j i }
{
    pair_at(past(blocks_from(part, j), 1), i)
}

// 0Ah: how many register pairs block w has, 0 for the chip initialisation block and 1 for the read status block.
pub fn list(part: &[u8], w: usize) -> Option<u8>
    ensures { result ≡ list_in part.now w }
{
    list_at(lists_from(part, 2, w))
}

// 0Ah: register pair i of block w.
pub fn list_pair(part: &[u8], w: usize, i: usize) -> Option<RegisterPair>
    ensures { result ≡ list_pair_in part.now w i }
{
    pair_at(lists_from(part, 2, w), i)
}

// 0Dh: how many register pairs block w has, 0 for red, 1 for green and 2 for blue.
pub fn colour(part: &[u8], w: usize) -> Option<u8>
    ensures { result ≡ colour_in part.now w }
{
    list_at(lists_from(part, 3, w))
}

// 0Dh: register pair i of block w.
pub fn colour_pair(part: &[u8], w: usize, i: usize) -> Option<RegisterPair>
    ensures { result ≡ colour_pair_in part.now w i }
{
    pair_at(lists_from(part, 3, w), i)
}

// 0Bh: the zone's own number.
pub fn zone_number(part: &[u8]) -> u8
    ensures { result ≡ zone_number part.now }
{
    byte_at(part, 0)
}

// 0Bh: the string index of the zone.
pub fn zone_string(part: &[u8]) -> u8
    ensures { result ≡ zone_string part.now }
{
    byte_at(part, 1)
}

// 0Ch: the number of the string.
pub fn string_number(part: &[u8]) -> u8
    ensures { result ≡ string_number part.now }
{
    byte_at(part, 0)
}

// 0Ch: the text of the string, behind its number and its locale.
pub fn text(part: &[u8]) -> &[u8]
    ensures { result.now ≡ text_of part.now }
{
    past(part, 3)
}

// The byte at a place, 0 past the end.
fn byte_at(b: &[u8], i: usize) -> u8
    ensures { result ≡ byte b.now i }
{
    b.get(i).copied().unwrap_or(0)
}

// The bytes past the first n; none where they end before.
fn past(b: &[u8], n: usize) -> &[u8]
    ensures { result.now ≡ drop n b.now }
{
    &b[n.min(b.len())..]
}

// The bytes that ENTRIES and its pairs take.
fn size(q: &[u8]) -> usize
    ensures { result ≡ 1 + 4 * byte q.now 0 }
{
    1 + 4 * usize::from(byte_at(q, 0))
}

// Whether they stand whole at the head of the bytes.
fn whole(q: &[u8]) -> bool
    ensures { result ≡ whole_list q.now }
{
    size(q) <= q.len()
}

// How many pairs they are.
fn list_at(q: &[u8]) -> Option<u8>
    ensures { result ≡ list_at q.now }
{
    if whole(q) { Some(byte_at(q, 0)) } else { None }
}

// Pair i of them.
fn pair_at(q: &[u8], i: usize) -> Option<RegisterPair>
    ensures { result ≡ pair_at q.now i }
{
    if !whole(q) || usize::from(byte_at(q, 0)) <= i {
        return None;
    }
    let at = 1 + 4 * i;
    Some(RegisterPair {
        address: word(q, at),
        data: word(q, at + 2),
    })
}

// The speed block at the head of the bytes: SPEED, and the list behind it.
fn block_at(r: &[u8]) -> Option<SpeedBlock>
    ensures { result ≡ block_at r.now }
{
    let speed = byte_at(r, 0);
    let n = list_at(past(r, 1))?;
    Some(SpeedBlock {
        speed: HundredRpm(speed),
        entries: n,
    })
}

// The bytes from speed block j on; none are left past the last.
fn blocks_from(part: &[u8], j: usize) -> &[u8]
    ensures { result.now ≡ blocks_from part.now j }
{
    let mut r = part;
    for _ in 0..j {
        if r.is_empty() {
            return r;
        }
        r = after_list(past(r, 1));
    }
    r
}

// The bytes from block w on, of so many; none past the last.
fn lists_from(part: &[u8], blocks: usize, w: usize) -> &[u8]
    ensures { result.now ≡ lists_from blocks part.now w }
{
    if blocks <= w {
        return past(part, part.len());
    }
    let mut r = part;
    for _ in 0..w {
        r = after_list(r);
    }
    r
}

// The bytes past a list.
fn after_list(q: &[u8]) -> &[u8]
    ensures { result.now ≡ after_list q.now }
{
    past(q, size(q))
}
