// An element's bytes as a case of the element enum, where its variable part starts, its identifier and its position.
#![tactic(auto)]

ghost use Rattle.std.specs.Prelude.{◌≡◌};
ghost use Rattle.std.proofs.Math.Option.{some};
ghost use Rattle.format.specs.Records.{Record, element_of, unknown_position};
ghost use Rattle.format.specs.Layout.{id_of, optional_byte};
ghost use Rattle.format.specs.Decode.{decode};
ghost use Rattle.elements.specs.Parts.{part_start};

use format::pins::{Chip, Pin};
use format::records::{Element, Placement};

// The element in the bytes after a header with this identifier, its pins of this chip.
pub fn element_of(id: u8, b: &[u8], chip: Chip) -> Element
    requires { (x : Record) × (decode chip id b.now ≡ some x) }
    ensures { (x : Record) → decode chip id b.now ≡ some x → result ≡ element_of x }
{
    match id {
        1 => Element::Digital(fields::digital(b, chip)),
        2 => Element::Analogue(fields::analogue(b, chip)),
        3 => Element::Fan(fields::fan(b, chip)),
        4 => Element::Led(fields::led(b, chip)),
        5 => Element::Water(fields::water(b, chip)),
        6 => Element::Pump(fields::fan(b, chip)),
        7 => Element::Voltage(fields::voltage(b, chip)),
        8 => Element::Current(fields::current(b, chip)),
        9 => Element::Controller(fields::device(b, chip)),
        10 => Element::Tachometer(fields::device(b, chip)),
        12 => Element::Text,
        13 => Element::External(fields::external(b, chip)),
        14 => Element::Rgb(fields::rgb(b, chip)),
        _ => Element::Zone,
    }
}

// The offset of the variable part in an element of so many bytes: its end where it has none.
pub fn part_start(id: u8, len: usize) -> usize
    ensures { result ≡ part_start id len }
{
    match id {
        9 => 11,
        10 => 12,
        11 => 3,
        12 => 3,
        13 => 12,
        _ => len,
    }
}

// The identifier of an element.
pub fn id_of(e: Element) -> u8
    ensures { result ≡ id_of e }
{
    match e {
        Element::Digital(_) => 0x01,
        Element::Analogue(_) => 0x02,
        Element::Fan(_) => 0x03,
        Element::Led(_) => 0x04,
        Element::Water(_) => 0x05,
        Element::Pump(_) => 0x06,
        Element::Voltage(_) => 0x07,
        Element::Current(_) => 0x08,
        Element::Controller(_) => 0x09,
        Element::Tachometer(_) => 0x0a,
        Element::Zone => 0x0b,
        Element::Text => 0x0c,
        Element::External(_) => 0x0d,
        Element::Rgb(_) => 0x0e,
    }
}

// A position is unknown where all three axes are FFh; FFh on one or two of them is a distance.
pub fn position_unknown(p: Placement) -> bool
    ensures { result ≡ unknown_position p }
{
    (p.x.0 == 255) & (p.y.0 == 255) & (p.z.0 == 255)
}

// The byte of a place that may be unused.
pub fn byte_of(p: Option<Pin>) -> u8
    ensures { result ≡ optional_byte p }
{
    match p {
        None => 255,
        Some(q) => q.0,
    }
}
