// From the 32 bytes that hold a record's numbers at the C face, each number as wide as the record's type and lowest byte first, to
// the record, one function a kind. Byte 31 names the chip of its pins; the bytes that a kind does not use are not looked at. The
// numbers of 03h, 05h, 06h, 07h and 0Eh are laid out as the element's bytes after its header, so that `fields` reads them.
#![tactic(auto)]

ghost use Rattle.std.specs.Prelude.{◌≡◌, ◌<◌, eqb};
ghost use Rattle.format.specs.Slots.{byte};
ghost use Rattle.numbers.specs.From.{chip_from, address_from, digital_from, analogue_from, lamp_from, led_from, current_from, device_from};
ghost use Rattle.numbers.specs.From.{external_from, description_from, kind_from, element_from};

use fields::{optional, placement};
use format::pins::{Chip, Pin};
use format::records::{
    Address, AnalogueSensor, BusDevice, CurrentSensor, Description, DigitalSensor, Element,
    ExternalRgb, Lamp, StatusLed,
};
use format::units::{Counts, Deciamps, Degrees, FourMilliamps};
use words::{long, word};

pub fn description(n: &[u8; 32]) -> Description
    ensures { result ≡ description_from n.now }
{
    let chip = chip_of(n);
    Description {
        device: n[0],
        string: n[1],
        serial: long(n, 2),
        spwr: n[6] != 0,
        power: FourMilliamps(n[7]),
        revision0: optional(n[8], chip),
        revision1: optional(n[9], chip),
        revision2: optional(n[10], chip),
    }
}

// The element of an identifier, or none where that is not one of the fourteen.
pub fn element(id: u8, n: &[u8; 32]) -> Option<Element>
    ensures { result ≡ element_from id n.now }
{
    match id {
        1..=14 => Some(of_kind(id, n, chip_of(n))),
        _ => None,
    }
}

// The element of one of the fourteen identifiers.
fn of_kind(id: u8, n: &[u8; 32], chip: Chip) -> Element
    ensures { result ≡ kind_from id chip (byte n.now) }
{
    match id {
        1 => Element::Digital(digital(n, chip)),
        2 => Element::Analogue(analogue(n, chip)),
        3 => Element::Fan(fields::fan(n, chip)),
        4 => Element::Led(led(n, chip)),
        5 => Element::Water(fields::water(n, chip)),
        6 => Element::Pump(fields::fan(n, chip)),
        7 => Element::Voltage(fields::voltage(n, chip)),
        8 => Element::Current(current(n, chip)),
        9 => Element::Controller(device(n, chip)),
        10 => Element::Tachometer(device(n, chip)),
        11 => Element::Zone,
        12 => Element::Text,
        13 => Element::External(external(n, chip)),
        _ => Element::Rgb(fields::rgb(n, chip)),
    }
}

// 01h: a device on a bus, and what its registers mean
fn digital(n: &[u8; 32], chip: Chip) -> DigitalSensor
    ensures { result ≡ digital_from chip (byte n.now) }
{
    let d = device(n, chip);
    let p = d.placement;
    let a = d.address;
    DigitalSensor {
        placement: p,
        bus: d.bus,
        address: a,
        lsb: word(n, 8),
        msb: word(n, 10),
        minvalue: word(n, 12),
        mintemp: Degrees(n[14]),
        maxvalue: word(n, 15),
        maxtemp: Degrees(n[17]),
    }
}

// 02h
fn analogue(n: &[u8; 32], chip: Chip) -> AnalogueSensor
    ensures { result ≡ analogue_from chip (byte n.now) }
{
    AnalogueSensor {
        placement: placement(n),
        thermal: n[5],
        pin: Pin(n[6], chip),
        at0: Counts(word(n, 7)),
        at25: Counts(word(n, 9)),
        at50: Counts(word(n, 11)),
        at75: Counts(word(n, 13)),
        at100: Counts(word(n, 15)),
    }
}

// 04h
fn led(n: &[u8; 32], chip: Chip) -> StatusLed
    ensures { result ≡ led_from chip (byte n.now) }
{
    StatusLed {
        placement: placement(n),
        one: lamp(n, 5, chip),
        two: lamp(n, 8, chip),
        three: lamp(n, 11, chip),
    }
}

// 08h
fn current(n: &[u8; 32], chip: Chip) -> CurrentSensor
    ensures { result ≡ current_from chip (byte n.now) }
{
    CurrentSensor {
        placement: placement(n),
        pin: Pin(n[5], chip),
        imin: Deciamps(word(n, 6)),
        imax: Deciamps(word(n, 8)),
    }
}

// 09h and 0Ah, before their blocks
fn device(n: &[u8; 32], chip: Chip) -> BusDevice
    ensures { result ≡ device_from chip (byte n.now) }
{
    BusDevice {
        placement: placement(n),
        bus: n[5],
        address: address(n[6], n[7], chip),
    }
}

// 0Dh, before its blocks
fn external(n: &[u8; 32], chip: Chip) -> ExternalRgb
    ensures { result ≡ external_from chip (byte n.now) }
{
    ExternalRgb {
        device: device(n, chip),
        identifier: n[8],
    }
}

fn lamp(n: &[u8; 32], i: usize, chip: Chip) -> Lamp
    requires { i < 30 }
    ensures { result ≡ lamp_from chip (byte n.now) i }
{
    Lamp {
        pin: optional(n[i], chip),
        colour: n[i + 1],
        purpose: n[i + 2],
    }
}

// 0 is a bus address, any other kind a chip select pin.
fn address(kind: u8, a: u8, chip: Chip) -> Address
    ensures { result ≡ address_from chip (eqb kind 0) a }
{
    if kind == 0 {
        Address::Bus(a)
    } else {
        Address::Select(Pin(a, chip))
    }
}

// 0 is the 320, any other number the 321.
fn chip_of(n: &[u8; 32]) -> Chip
    ensures { result ≡ chip_from (byte n.now) }
{
    if n[31] == 0 {
        Chip::C8051F320
    } else {
        Chip::C8051F321
    }
}
