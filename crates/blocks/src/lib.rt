// The blocks of 09h, 0Ah and 0Dh, which are to fill an element's part exactly: its bytes from the first block on. A block is an
// ENTRIES byte and that many pairs of four bytes; `lead` bytes stand before each ENTRIES byte: in 09h one, SPEED, in the
// others none.
#![tactic(auto)]

ghost use Rattle.std.specs.Prelude.{◌≡◌, true, ◌+◌, ◌<◌, ◌≤◌, length};
ghost use Rattle.blocks.specs.Cutting.{enter, past_block, cut_of, SpeedPart, PairsPart};

// A part as far as it is cut: where the next ENTRIES byte would stand, and whether each block before it has a pair. (How many
// blocks there are is not counted: a third number would not go by registers, which costs a third of the time.)
#[derive(Clone, Copy)]
pub struct Cut {
    pub at: usize,
    pub full: bool,
}

// What a whole part says of its element: 8, whether blocks fill it and are as many as there may be, and 9, whether each block
// that must have a pair has one.
#[derive(Clone, Copy)]
pub struct Part {
    pub whole: bool,
    pub full: bool,
}

// The step: past an ENTRIES byte and its pairs, where one is there, and else nothing moves. `least` is where a block with no
// pair leads, and no other step leads there. No step branches, for speed.
pub fn enter(there: bool, lead: usize, entries: u8, c: Cut) -> Cut
    requires { (lead ≤ 1) × (c.at ≤ 100000) }
    ensures { (result ≡ enter there lead entries c) × (result.at ≤ c.at + 1022) }
{
    let least = c.at + 1 + lead;
    let next = if there {
        least + 4 * usize::from(entries)
    } else {
        c.at
    };
    Cut {
        at: next,
        full: c.full & (next != least),
    }
}

// Past one block more, where there is one; past the end the byte that is looked at does not count.
fn past_block(p: &[u8], lead: usize, c: Cut) -> Cut
    requires { (lead ≤ 1) × (lead < length p.now) × (c.at ≤ 100000) }
    ensures { (result ≡ past_block lead p.now c) × (result.at ≤ c.at + 1022) }
{
    let at = c.at;
    let more = at < p.len();
    let i = if more { at } else { lead };
    enter(more, lead, p[i], c)
}

// A part cut from its first byte on, past so many blocks at most.
pub fn cut_blocks(p: &[u8], lead: usize, most: usize) -> Cut
    requires { (lead ≤ 1) × (most ≤ 6) }
    ensures { (result ≡ cut_of most lead p.now) × (result.at ≤ 10000) }
{
    let mut c = Cut {
        at: lead,
        full: true,
    };
    if p.len() <= lead {
        return c;
    }
    for _ in 0..most {
        c = past_block(p, lead, c);
    }
    c
}

// 09h: one to six speed blocks, each with a pair. They fill the part where the cut leads one past its end, and there is one
// where it leads past its start.
pub fn speed_blocks(p: &[u8]) -> Part
    ensures { SpeedPart p.now result }
{
    let c = cut_blocks(p, 1, 6);
    Part {
        whole: (c.at == p.len() + 1) & (1 < c.at),
        full: c.full,
    }
}

// 09h again, for the reader, and quicker where each block has a pair. `at` is the ENTRIES byte of a block and stays on the last
// one, so that no step asks whether there is a block; `end` is where the next one would stand. A block with no pair is left to
// `speed_blocks`. (Only the reader calls this, so the compiler lays it into the pass: docs/BENCH.md.)
pub fn read_speed_blocks(p: &[u8]) -> Part
    ensures { SpeedPart p.now result }
{
    if p.len() <= 1 {
        return Part {
            whole: false,
            full: true,
        };
    }
    let mut at: usize = 1;
    let mut end: usize = 1;
    for _ in 0..6usize {
        let entries = p[at];
        if entries == 0 {
            return Part {
                whole: speed_blocks(p).whole,
                full: false,
            };
        }
        end = at + 2 + 4 * usize::from(entries);
        if end < p.len() {
            at = end;
        }
    }
    Part {
        whole: (end == p.len() + 1) & (1 < end),
        full: true,
    }
}

// So many blocks, which may have no pair: 0Ah has two, 0Dh three. They fill the part where the last of them begins before its end and
// leads to it.
pub fn pairs_blocks(p: &[u8], blocks: usize) -> Part
    requires { (1 ≤ blocks) × (blocks ≤ 6) }
    ensures { PairsPart blocks p.now result }
{
    let c = cut_blocks(p, 0, blocks - 1);
    let whole = if c.at < p.len() {
        past_block(p, 0, c).at == p.len()
    } else {
        false
    };
    Part { whole, full: true }
}
