// 25: whether the numbers of a record fit the widths of their fields.
#![tactic(auto)]

ghost use Rattle.std.specs.Prelude.{◌≡◌, true, ◌&&◌};
ghost use Rattle.format.specs.Slots.{halves, roomy, all_roomy};
ghost use Rattle.format.specs.Layout.{device, optional_pin_slot};
ghost use Rattle.format.specs.Rules.{description_roomy, element_roomy};
ghost use Rattle.format.specs.declared.records.Element.TheVariants.{Digital, Analogue, Fan, Led, Pump, Controller, Tachometer, External};

use format::pins::Pin;
use format::records::{
    Address, AnalogueSensor, BusDevice, Description, DigitalSensor, Element, ExternalRgb, Lamp,
    PwmFan, StatusLed,
};

// 25 of the description: no number is too large for its field.
pub fn description_roomy(d: Description) -> bool
    ensures { result ≡ description_roomy d }
{
    let a = d.revision0;
    let b = d.revision1;
    let c = d.revision2;
    (d.serial < 0x1000000) & ((d.power.0 < 128) & (pin_roomy(a) & (pin_roomy(b) & pin_roomy(c))))
}

// Of a place that may be unused: FFh and every pin's byte fit a byte.
fn pin_roomy(p: Option<Pin>) -> bool
    ensures { result ≡ roomy (optional_pin_slot p) }
{
    match p {
        None => true,
        Some(_) => true,
    }
}

// Of a bus type and an address.
fn address_roomy(bus: u8, a: Address) -> bool
    ensures { result ≡ all_roomy (device bus a) }
{
    match a {
        Address::Bus(n) => (bus < 16) & (n < 128),
        Address::Select(_) => bus < 16,
    }
}

// 01h
fn digital_roomy(d: DigitalSensor) -> bool
    ensures { result ≡ element_roomy (Digital d) }
{
    let a = d.address;
    address_roomy(d.bus, a)
}

// 02h
fn analogue_roomy(a: AnalogueSensor) -> bool
    ensures { result ≡ element_roomy (Analogue a) }
{
    a.thermal < 16
}

// 03h and 06h
fn fan_roomy(f: PwmFan) -> bool
    ensures { (result ≡ element_roomy (Fan f)) × (result ≡ element_roomy (Pump f)) }
{
    let t = f.tachometer;
    pin_roomy(t)
}

// One lamp: its pin, and COLOR and PURPOSE.
fn lamp_roomy(l: Lamp) -> bool
    ensures { result ≡ roomy (optional_pin_slot l.pin) && roomy (halves l.colour l.purpose) }
{
    let p = l.pin;
    pin_roomy(p) & ((l.colour < 16) & (l.purpose < 16))
}

// 04h
fn led_roomy(l: StatusLed) -> bool
    ensures { result ≡ element_roomy (Led l) }
{
    let a = l.one;
    let b = l.two;
    let c = l.three;
    lamp_roomy(a) & (lamp_roomy(b) & lamp_roomy(c))
}

// 09h and 0Ah
fn device_roomy(d: BusDevice) -> bool
    ensures { (result ≡ element_roomy (Controller d)) × (result ≡ element_roomy (Tachometer d)) }
{
    let a = d.address;
    address_roomy(d.bus, a)
}

// 0Dh
fn external_roomy(x: ExternalRgb) -> bool
    ensures { result ≡ element_roomy (External x) }
{
    let d = x.device;
    let a = d.address;
    address_roomy(d.bus, a)
}

// 25 of an element. The numbers of the kinds that always have room fit by their types.
pub fn element_roomy(e: Element) -> bool
    ensures { result ≡ element_roomy e }
{
    match e {
        Element::Digital(d) => digital_roomy(d),
        Element::Analogue(a) => analogue_roomy(a),
        Element::Fan(f) => fan_roomy(f),
        Element::Led(l) => led_roomy(l),
        Element::Water(_) => true,
        Element::Pump(f) => fan_roomy(f),
        Element::Voltage(_) => true,
        Element::Current(_) => true,
        Element::Controller(d) => device_roomy(d),
        Element::Tachometer(d) => device_roomy(d),
        Element::Zone => true,
        Element::Text => true,
        Element::External(x) => external_roomy(x),
        Element::Rgb(_) => true,
    }
}
