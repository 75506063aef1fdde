// Which pins a chip has and a use permits: a constant table of pin sets, one row for each chip and use, over the 25 pins.
#![tactic(auto)]

ghost use Rattle.std.specs.Prelude.{◌≡◌, ◌<◌};
ghost use Rattle.format.specs.Pins.{allowed, allowed_or_unused};
ghost use Rattle.pinsets.specs.Sets.{pin_index, pin_bit, by_chip, row_of};

use format::pins::{Chip, Pin, Use};

// Pin i of the 25 stands in bit i of a row: P0.0 to P0.7 in bits 0 to 7, P1 in 8 to 15, P2 in 16 to 23, P3.0 in bit 24. The rows of
// the 320 come first; those of the 321 lack bits 20 to 23.
const PERMITTED: [u32; 10] = [
    0x0e60, 0x1fff000, 0x1fffe60, 0x1fff01f, 0x1ffffff, 0x0e60, 0x10ff000, 0x10ffe60, 0x10ff01f,
    0x10fffff,
];

// A pin byte's place among the 25 pins; 31 where there is no such pin.
fn index_of(b: u8) -> u32
    ensures { (result ≡ pin_index b) × (result < 32) }
{
    let c = if (b % 16 < 8) & (b < 49) { b } else { 55 };
    (c / 16 * 8 + c % 8) as u32
}

// A pin byte's bit.
pub fn bit_of(b: u8) -> u32
    ensures { result ≡ pin_bit b }
{
    1u32 << index_of(b)
}

// Of two rows that of the chip.
fn by_chip(c: Chip, large: u32, small: u32) -> u32
    ensures { result ≡ by_chip c large small }
{
    match c {
        Chip::C8051F320 => large,
        Chip::C8051F321 => small,
    }
}

// The row of a chip and a use.
fn row_of(c: Chip, u: Use) -> u32
    ensures { result ≡ row_of c u }
{
    match u {
        Use::FanPin => by_chip(c, PERMITTED[0], PERMITTED[5]),
        Use::AnaloguePin => by_chip(c, PERMITTED[1], PERMITTED[6]),
        Use::ChipSelect => by_chip(c, PERMITTED[2], PERMITTED[7]),
        Use::StatusLed => by_chip(c, PERMITTED[3], PERMITTED[8]),
        Use::HardwareRevision => by_chip(c, PERMITTED[4], PERMITTED[9]),
    }
}

// Rule 10 of a pin: it is of the named chip, which has it, and its use permits it.
pub fn allowed(c: Chip, u: Use, p: Pin) -> bool
    ensures { result ≡ allowed c u p }
{
    (c == p.1) & (row_of(c, u) & bit_of(p.0) != 0)
}

// Rule 10 of a place that may be unused.
pub fn allowed_or_unused(c: Chip, u: Use, p: Option<Pin>) -> bool
    ensures { result ≡ allowed_or_unused c u p }
{
    match p {
        None => true,
        Some(q) => allowed(c, u, q),
    }
}
