// What an element says of itself in the listing: its zone, its own pins, and whether it is in use.
#![tactic(auto)]

ghost use Rattle.std.specs.Prelude.{◌≡◌, true, Some};
ghost use Rattle.format.specs.Rules.{type_in_use, in_use};
ghost use Rattle.format.specs.Slots.{byte};
ghost use Rattle.format.specs.declared.settings.Rules.TheVariants.{Ordinary};
ghost use Rattle.shown.specs.Own.{three as threeOf, select_of, fan_pins, lamp_pins, own_pins, zone_of};

use elements::byte_of;
use format::records::{Address, BusDevice, Element, PwmFan, StatusLed};
use format::settings::Rules;

// An element's own pins in field order, FFh where there is none.
#[derive(Clone, Copy)]
pub struct OwnPins {
    pub one: u8,
    pub two: u8,
    pub three: u8,
}

// What an element says of itself in the listing.
#[derive(Clone, Copy)]
pub struct Showing {
    pub zone: Option<u8>,
    pub pins: OwnPins,
    pub used: bool,
}

// The zone of an element, of a zone descriptor its own number; a string has none; and its pins in field order,
// of which a chip select is one and shared pins are not; and whether the ordinary rules have it in use. One match for all: the kind
// is told once (docs/BENCH.md).
pub fn shown(e: Element, part: &[u8]) -> Showing
    ensures { (result.zone ≡ zone_of e part.now) × (result.pins ≡ own_pins e) × (result.used ≡ in_use Ordinary e) }
{
    match e {
        Element::Digital(d) => {
            let a = d.address;
            on_bus(d.placement.zone, d.bus, a)
        }
        Element::Analogue(a) => placed(a.placement.zone, a.pin.0, 255, 255),
        Element::Fan(f) => fan(f),
        Element::Led(l) => led(l),
        Element::Water(w) => placed(w.placement.zone, w.pin.0, 255, 255),
        Element::Pump(f) => fan(f),
        Element::Voltage(v) => placed(v.placement.zone, v.pin.0, 255, 255),
        Element::Current(c) => placed(c.placement.zone, c.pin.0, 255, 255),
        Element::Controller(d) => device(d),
        Element::Tachometer(d) => device(d),
        Element::Zone => without_pins(Some(number_of(part))),
        Element::Text => without_pins(None),
        Element::External(x) => {
            let d = x.device;
            device(d)
        }
        Element::Rgb(r) => placed(r.placement.zone, r.red.0, r.green.0, r.blue.0),
    }
}

fn placed(zone: u8, one: u8, two: u8, three: u8) -> Showing
    ensures { (result.zone ≡ Some zone) × (result.pins ≡ threeOf one two three) × (result.used ≡ true) }
{
    Showing {
        zone: Some(zone),
        pins: own(one, two, three),
        used: true,
    }
}

// 03h and 06h
fn fan(f: PwmFan) -> Showing
    ensures { (result.zone ≡ Some f.placement.zone) × (result.pins ≡ fan_pins f) × (result.used ≡ true) }
{
    let t = f.tachometer;
    placed(f.placement.zone, f.pwm.0, byte_of(t), 255)
}

// 04h
fn led(l: StatusLed) -> Showing
    ensures { (result.zone ≡ Some l.placement.zone) × (result.pins ≡ lamp_pins l) × (result.used ≡ true) }
{
    let a = l.one;
    let b = l.two;
    let c = l.three;
    let p = a.pin;
    let q = b.pin;
    let r = c.pin;
    placed(l.placement.zone, byte_of(p), byte_of(q), byte_of(r))
}

// A device on a bus: its chip select, if it has one, and its bus type.
fn on_bus(zone: u8, bus: u8, a: Address) -> Showing
    ensures { (result.zone ≡ Some zone) × (result.pins ≡ threeOf (select_of a) 0xff 0xff) × (result.used ≡ type_in_use Ordinary bus) }
{
    Showing {
        zone: Some(zone),
        pins: selected(a),
        used: rules::in_use(bus, Rules::Ordinary),
    }
}

// 09h, 0Ah and 0Dh
fn device(d: BusDevice) -> Showing
    ensures { (result.zone ≡ Some d.placement.zone) × (result.pins ≡ threeOf (select_of d.address) 0xff 0xff)
        × (result.used ≡ type_in_use Ordinary d.bus) }
{
    let a = d.address;
    on_bus(d.placement.zone, d.bus, a)
}

fn without_pins(zone: Option<u8>) -> Showing
    ensures { (result.zone ≡ zone) × (result.pins ≡ threeOf 0xff 0xff 0xff) × (result.used ≡ true) }
{
    Showing {
        zone,
        pins: own(255, 255, 255),
        used: true,
    }
}

fn select_of(a: Address) -> u8
    ensures { result ≡ select_of a }
{
    match a {
        Address::Bus(_) => 255,
        Address::Select(p) => p.0,
    }
}

// Three pins in field order.
pub fn own(one: u8, two: u8, three: u8) -> OwnPins
    ensures { result ≡ threeOf one two three }
{
    OwnPins { one, two, three }
}

// A device's own pin: its chip select, if it has one.
fn selected(a: Address) -> OwnPins
    ensures { result ≡ threeOf (select_of a) 0xff 0xff }
{
    own(select_of(a), 255, 255)
}

// A zone descriptor's own number, from its part.
fn number_of(part: &[u8]) -> u8
    ensures { result ≡ byte part.now 0 }
{
    part.first().copied().unwrap_or(0)
}
