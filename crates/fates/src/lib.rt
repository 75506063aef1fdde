// What becomes of each element of a damaged table, noted in two lent arrays: what is kept, and the changes in the order made.
#![tactic(auto)]

ghost use Rattle.std.specs.Prelude.{◌≡◌, ◌<◌};
ghost use Rattle.fates.specs.Noted.{Settles};

// It stays; it is left out by the rule of a number; its string index is cleared.
#[derive(Clone, Copy)]
pub enum Fate {
    Stays,
    Leaves(u8),
    Mends,
}

// An element that is kept: its old place, and whether its string index is cleared.
#[derive(Clone, Copy)]
pub struct Kept {
    pub place: u16,
    pub cleared: bool,
}

// A change: the old place of an element, the number of the rule, and whether its string index is cleared; else it is left out. The
// number is a u16, since the lines that a log may stand for have numbers up to 511.
#[derive(Clone, Copy)]
pub struct Note {
    pub place: u16,
    pub number: u16,
    pub cleared: bool,
}

// How many are kept, and how many changes there are.
#[derive(Clone, Copy)]
pub struct Counts {
    pub kept: usize,
    pub lines: usize,
}

// One element more.
pub fn settle(
    kept: &mut [Kept; 96],
    log: &mut [Note; 1649],
    n: Counts,
    held: Kept,
    fate: Fate,
) -> Counts
    requires { (n.kept < 96) × (n.lines < 1649) × (held.place < 4096) }
    ensures { Settles kept.old log.old n held fate result kept.new log.new }
{
    let i = n.kept;
    let j = n.lines;
    let place = held.place;
    match fate {
        Fate::Stays => {
            kept[i] = held;
            counted(i + 1, j)
        }
        Fate::Leaves(number) => {
            log[j] = Note {
                place,
                number: u16::from(number),
                cleared: false,
            };
            counted(i, j + 1)
        }
        Fate::Mends => {
            kept[i] = Kept {
                place,
                cleared: true,
            };
            log[j] = Note {
                place,
                number: 14,
                cleared: true,
            };
            counted(i + 1, j + 1)
        }
    }
}

pub fn counted(kept: usize, lines: usize) -> Counts
    ensures { (result.kept ≡ kept) × (result.lines ≡ lines) }
{
    Counts { kept, lines }
}
