// From records to bytes in a lent buffer: reserved places at zero, every other byte of the buffer as it was.
#![tactic(auto)]

ghost use Rattle.std.specs.Prelude.{◌≡◌, true, ◌+◌, ◌≤◌, length};
ghost use Rattle.format.specs.Slots.{byte_of, flag, roomy, written};
ghost use Rattle.format.specs.Layout.{opening, fixed};
ghost use Rattle.format.specs.Rules.{description_roomy, element_roomy};
ghost use Rattle.format.specs.Writing.{overwritten};

mod kinds;

use format::records::{Description, Element};
use kinds::RESERVED;

// How many bytes an element's fixed fields are, its header not counted.
pub fn fixed_length(e: Element) -> usize
    ensures { result ≡ length (fixed e) }
{
    match e {
        Element::Digital(_) => 18,
        Element::Analogue(_) => 17,
        Element::Fan(_) => 13,
        Element::Led(_) => 11,
        Element::Water(_) => 12,
        Element::Pump(_) => 13,
        Element::Voltage(_) => 8,
        Element::Current(_) => 11,
        Element::Controller(_) => 8,
        Element::Tachometer(_) => 9,
        Element::Zone => 0,
        Element::Text => 0,
        Element::External(_) => 9,
        Element::Rgb(_) => 8,
    }
}

// The new bytes from a place on.
pub fn copy_into(buf: &mut [u8], at: usize, new: &[u8])
    requires { at + length new.now ≤ length buf.old }
    ensures { buf.new ≡ overwritten at new.now buf.old }
{
    // Byte by byte: `copy_from_slice` would have the archive ask for memmove from outside.
    for j in 0..new.len() {
        buf[at + j] = new[j];
    }
}

// The description of a table of 16 bytes.
pub fn put_description(buf: &mut [u8], d: Description)
    requires { (16 ≤ length buf.old) × (description_roomy d ≡ true) }
    ensures { buf.new ≡ overwritten 0 (written (opening d 16)) buf.old }
{
    copy_into(buf, 0, &description_bytes(d));
}

// An element's fixed fields.
pub fn put_fixed(buf: &mut [u8], at: usize, e: Element)
    requires { (element_roomy e ≡ true) × (at + length (fixed e) ≤ length buf.old) }
    ensures { buf.new ≡ overwritten at (written (fixed e)) buf.old }
{
    match e {
        Element::Digital(d) => kinds::digital(buf, at, d),
        Element::Analogue(a) => kinds::analogue(buf, at, a),
        Element::Fan(f) => kinds::fan(buf, at, f),
        Element::Led(l) => kinds::led(buf, at, l),
        Element::Water(w) => kinds::water(buf, at, w),
        Element::Pump(f) => kinds::fan(buf, at, f),
        Element::Voltage(v) => kinds::voltage(buf, at, v),
        Element::Current(c) => kinds::current(buf, at, c),
        Element::Controller(d) => kinds::controller(buf, at, d),
        Element::Tachometer(d) => kinds::tachometer(buf, at, d),
        Element::Zone => {}
        Element::Text => {}
        Element::External(x) => kinds::external(buf, at, x),
        Element::Rgb(c) => kinds::rgb(buf, at, c),
    }
}

// A flag in bit 7, a number in bits 6-0.
fn flag_byte(t: bool, v: u8) -> u8
    requires { roomy (flag t v) ≡ true }
    ensures { result ≡ byte_of (flag t v) }
{
    if t { 128 + v } else { v }
}

// The bytes of a description, in a table of 16 bytes.
fn description_bytes(d: Description) -> [u8; 16]
    requires { description_roomy d ≡ true }
    ensures { result ≡ written (opening d 16) }
{
    let power = flag_byte(d.spwr, d.power.0);
    let a = d.revision0;
    let b = d.revision1;
    let c = d.revision2;
    [
        1,
        16,
        0,
        d.device,
        d.string,
        (d.serial % 256) as u8,
        (d.serial / 256 % 256) as u8,
        (d.serial / 65536) as u8,
        power,
        elements::byte_of(a),
        elements::byte_of(b),
        elements::byte_of(c),
        RESERVED,
        RESERVED,
        RESERVED,
        RESERVED,
    ]
}
