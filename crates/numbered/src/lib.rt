// From the record to its numbers, one function a kind; byte 31 names the chip of its pins, and the bytes that a kind does not use are 0.
#![tactic(auto)]

ghost use Rattle.std.specs.Prelude.{◌≡◌, [], ◌∷◌, ◌++◌, ◌+◌, ◌<◌, ◌≤◌};
ghost use Rattle.std.proofs.lemmas.List.Edits.{sets};
ghost use Rattle.format.specs.declared.records.Element.TheVariants.{Digital, Analogue, Fan, Led, Water, Voltage, Current, Controller};
ghost use Rattle.format.specs.declared.records.Element.TheVariants.{External, Rgb};
ghost use Rattle.words.specs.Widths.{two_bytes};
ghost use Rattle.numbered.specs.Into.{padded, chip_number, placement_numbers, kind_of, address_of, lamp_numbers};
ghost use Rattle.numbered.specs.Into.{element_into, description_into};

use elements::byte_of;
use format::pins::Chip;
use format::records::{
    Address, AnalogueSensor, BusDevice, CurrentSensor, Description, DigitalSensor, Element,
    ExternalRgb, Lamp, Placement, PwmFan, RgbLed, StatusLed, VoltageSensor, WaterLevel,
};

#[tactic(auto, using(crate::proofs::Storing::four_are))]
pub fn description(d: Description, chip: Chip) -> [u8; 32]
    ensures { result ≡ description_into chip d }
{
    let p = d.revision0;
    let q = d.revision1;
    let r = d.revision2;
    let mut n = put([0u8; 32], 8, [byte_of(p), byte_of(q), byte_of(r)]);
    n = put(n, 2, d.serial.to_le_bytes());
    n[0] = d.device;
    n[1] = d.string;
    n[6] = u8::from(d.spwr);
    n[7] = d.power.0;
    n[31] = number_of(chip);
    n
}

// Of a zone descriptor and of a string the numbers stand in the variable part.
pub fn element(e: Element, part: &[u8], chip: Chip) -> [u8; 32]
    ensures { result ≡ element_into chip e part.now }
{
    match e {
        Element::Digital(d) => digital(d, chip),
        Element::Analogue(a) => analogue(a, chip),
        Element::Fan(f) => fan(f, chip),
        Element::Led(l) => led(l, chip),
        Element::Water(w) => water(w, chip),
        Element::Pump(f) => fan(f, chip),
        Element::Voltage(v) => voltage(v, chip),
        Element::Current(c) => current(c, chip),
        Element::Controller(d) => device(d, chip),
        Element::Tachometer(d) => device(d, chip),
        Element::Zone => two(parts::zone_number(part), parts::zone_string(part)),
        Element::Text => two(parts::string_number(part), 0),
        Element::External(x) => external(x, chip),
        Element::Rgb(r) => rgb(r, chip),
    }
}

// 01h
fn digital(d: DigitalSensor, chip: Chip) -> [u8; 32]
    ensures { result ≡ element_into chip (Digital d) [] }
{
    let p = d.placement;
    let a = d.address;
    let mut n = bus_places(p, d.bus, a, chip);
    n = pair_at(n, 8, d.lsb);
    n = pair_at(n, 10, d.msb);
    n = pair_at(n, 12, d.minvalue);
    n = pair_at(n, 15, d.maxvalue);
    n[14] = d.mintemp.0;
    n[17] = d.maxtemp.0;
    n
}

// 02h
fn analogue(a: AnalogueSensor, chip: Chip) -> [u8; 32]
    ensures { result ≡ element_into chip (Analogue a) [] }
{
    let p = a.placement;
    let mut n = placement(p, chip);
    n[5] = a.thermal;
    n[6] = a.pin.0;
    n = pair_at(n, 7, a.at0.0);
    n = pair_at(n, 9, a.at25.0);
    n = pair_at(n, 11, a.at50.0);
    n = pair_at(n, 13, a.at75.0);
    pair_at(n, 15, a.at100.0)
}

// 03h and 06h
fn fan(f: PwmFan, chip: Chip) -> [u8; 32]
    ensures { result ≡ element_into chip (Fan f) [] }
{
    let p = f.placement;
    let t = f.tachometer;
    let mut n = placement(p, chip);
    n = put(n, 5, [f.pwm.0, byte_of(t), f.ppr]);
    n = pair_at(n, 8, f.minrpm.0);
    n = pair_at(n, 10, f.maxrpm.0);
    n[12] = f.duty;
    n
}

// 04h
fn led(l: StatusLed, chip: Chip) -> [u8; 32]
    ensures { result ≡ element_into chip (Led l) [] }
{
    let p = l.placement;
    let a = l.one;
    let b = l.two;
    let c = l.three;
    let with_one = lamp_at(placement(p, chip), 5, a);
    let with_two = lamp_at(with_one, 8, b);
    lamp_at(with_two, 11, c)
}

// 05h
fn water(w: WaterLevel, chip: Chip) -> [u8; 32]
    ensures { result ≡ element_into chip (Water w) [] }
{
    let p = w.placement;
    let mut n = placement(p, chip);
    n[5] = w.pin.0;
    n = pair_at(n, 6, w.full.0);
    n = pair_at(n, 8, w.empty.0);
    pair_at(n, 10, w.warning.0)
}

// 07h
fn voltage(v: VoltageSensor, chip: Chip) -> [u8; 32]
    ensures { result ≡ element_into chip (Voltage v) [] }
{
    let p = v.placement;
    put(placement(p, chip), 5, [v.pin.0, v.vmax.0, v.vmin.0])
}

// 08h
fn current(c: CurrentSensor, chip: Chip) -> [u8; 32]
    ensures { result ≡ element_into chip (Current c) [] }
{
    let p = c.placement;
    let mut n = placement(p, chip);
    n[5] = c.pin.0;
    n = pair_at(n, 6, c.imin.0);
    pair_at(n, 8, c.imax.0)
}

// 09h and 0Ah, before their blocks
fn device(d: BusDevice, chip: Chip) -> [u8; 32]
    ensures { result ≡ element_into chip (Controller d) [] }
{
    let p = d.placement;
    let a = d.address;
    bus_places(p, d.bus, a, chip)
}

// 0Dh, before its blocks: a device's numbers, and the identifier of its chip
fn external(x: ExternalRgb, chip: Chip) -> [u8; 32]
    ensures { result ≡ element_into chip (External x) [] }
{
    let d = x.device;
    let mut n = device(d, chip);
    n[8] = x.identifier;
    n
}

// 0Eh
fn rgb(c: RgbLed, chip: Chip) -> [u8; 32]
    ensures { result ≡ element_into chip (Rgb c) [] }
{
    let p = c.placement;
    put(placement(p, chip), 5, [c.red.0, c.green.0, c.blue.0])
}

fn placement(p: Placement, chip: Chip) -> [u8; 32]
    ensures { result ≡ padded (placement_numbers p) (chip_number chip) }
{
    let mut n = [0u8; 32];
    n[0] = p.string;
    n[1] = p.x.0;
    n[2] = p.y.0;
    n[3] = p.z.0;
    n[4] = p.zone;
    n[31] = number_of(chip);
    n
}

// What stands in front of a device on a bus.
fn bus_places(p: Placement, bus: u8, a: Address, chip: Chip) -> [u8; 32]
    ensures { result ≡ padded (placement_numbers p ++ bus ∷ kind_of a ∷ address_of a ∷ []) (chip_number chip) }
{
    put(placement(p, chip), 5, [bus, kind(a), address(a)])
}

// Bytes from a place on.
fn put<const N: usize>(n: [u8; 32], at: usize, bytes: [u8; N]) -> [u8; 32]
    requires { at + N ≤ 32 }
    ensures { result ≡ sets n at bytes.entry }
{
    let mut r = n;
    r[at..at + N].copy_from_slice(&bytes);
    r
}

// A number of two bytes, the lower first.
#[tactic(auto, using(crate::proofs::Storing::two_are))]
fn pair_at(n: [u8; 32], at: usize, x: u16) -> [u8; 32]
    requires { at < 31 }
    ensures { result ≡ sets n at (two_bytes x) }
{
    put(n, at, x.to_le_bytes())
}

fn lamp_at(n: [u8; 32], at: usize, l: Lamp) -> [u8; 32]
    requires { at < 30 }
    ensures { result ≡ sets n at (lamp_numbers l) }
{
    let p = l.pin;
    put(n, at, [byte_of(p), l.colour, l.purpose])
}

fn two(a: u8, b: u8) -> [u8; 32]
    ensures { result ≡ padded (a ∷ b ∷ []) 0 }
{
    let mut n = [0u8; 32];
    n[0] = a;
    n[1] = b;
    n
}

// 0 for a bus address, 1 for a chip select pin.
fn kind(a: Address) -> u8
    ensures { result ≡ kind_of a }
{
    match a {
        Address::Bus(_) => 0,
        Address::Select(_) => 1,
    }
}

fn address(a: Address) -> u8
    ensures { result ≡ address_of a }
{
    match a {
        Address::Bus(n) => n,
        Address::Select(p) => p.0,
    }
}

fn number_of(chip: Chip) -> u8
    ensures { result ≡ chip_number chip }
{
    match chip {
        Chip::C8051F320 => 0,
        Chip::C8051F321 => 1,
    }
}
