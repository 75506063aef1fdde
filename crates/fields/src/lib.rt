// From bytes to records, one function a kind. Each takes the slice from offset 3 of the element to its end, and the
// chip whose pins the record's are.
#![tactic(auto)]

ghost use Rattle.std.specs.Prelude.{◌≡◌, ◌+◌, ◌<◌, ◌≤◌, length, eqb};
ghost use Rattle.format.specs.Slots.{byte};
ghost use Rattle.format.specs.Decode.{optional_of, read_placement, pick_address, read_digital, read_analogue, read_fan, read_lamp, read_led};
ghost use Rattle.format.specs.Decode.{read_water, read_voltage, read_current, read_device, read_external, read_rgb, read_description};

use format::pins::{Chip, Pin};
use format::records::{
    Address, AnalogueSensor, BusDevice, CurrentSensor, Description, DigitalSensor, ExternalRgb,
    Lamp, Placement, PwmFan, RgbLed, StatusLed, VoltageSensor, WaterLevel,
};
use format::units::{Centimetres, Counts, Deciamps, Decivolts, Degrees, FourMilliamps, Rpm};
use words::word;

// 01h
pub fn digital(b: &[u8], chip: Chip) -> DigitalSensor
    requires { 18 ≤ length b.now }
    ensures { result ≡ read_digital chip (byte b.now) }
{
    let bus = b[5] % 16;
    DigitalSensor {
        placement: placement(b),
        bus,
        address: address(bus, b[6], chip),
        lsb: word(b, 8),
        msb: word(b, 10),
        minvalue: word(b, 12),
        mintemp: Degrees(b[14]),
        maxvalue: word(b, 15),
        maxtemp: Degrees(b[17]),
    }
}

// 02h
pub fn analogue(b: &[u8], chip: Chip) -> AnalogueSensor
    requires { 17 ≤ length b.now }
    ensures { result ≡ read_analogue chip (byte b.now) }
{
    AnalogueSensor {
        placement: placement(b),
        thermal: b[5] % 16,
        pin: Pin(b[6], chip),
        at0: Counts(word(b, 7)),
        at25: Counts(word(b, 9)),
        at50: Counts(word(b, 11)),
        at75: Counts(word(b, 13)),
        at100: Counts(word(b, 15)),
    }
}

// 03h and 06h
pub fn fan(b: &[u8], chip: Chip) -> PwmFan
    requires { 13 ≤ length b.now }
    ensures { result ≡ read_fan chip (byte b.now) }
{
    PwmFan {
        placement: placement(b),
        pwm: Pin(b[5], chip),
        tachometer: optional(b[6], chip),
        ppr: b[7],
        minrpm: Rpm(word(b, 8)),
        maxrpm: Rpm(word(b, 10)),
        duty: b[12],
    }
}

// 04h
pub fn led(b: &[u8], chip: Chip) -> StatusLed
    requires { 11 ≤ length b.now }
    ensures { result ≡ read_led chip (byte b.now) }
{
    StatusLed {
        placement: placement(b),
        one: lamp(b, 5, chip),
        two: lamp(b, 7, chip),
        three: lamp(b, 9, chip),
    }
}

// 05h
pub fn water(b: &[u8], chip: Chip) -> WaterLevel
    requires { 12 ≤ length b.now }
    ensures { result ≡ read_water chip (byte b.now) }
{
    WaterLevel {
        placement: placement(b),
        pin: Pin(b[5], chip),
        full: Counts(word(b, 6)),
        empty: Counts(word(b, 8)),
        warning: Counts(word(b, 10)),
    }
}

// 07h
pub fn voltage(b: &[u8], chip: Chip) -> VoltageSensor
    requires { 8 ≤ length b.now }
    ensures { result ≡ read_voltage chip (byte b.now) }
{
    VoltageSensor {
        placement: placement(b),
        pin: Pin(b[5], chip),
        vmax: Decivolts(b[6]),
        vmin: Decivolts(b[7]),
    }
}

// 08h
pub fn current(b: &[u8], chip: Chip) -> CurrentSensor
    requires { 11 ≤ length b.now }
    ensures { result ≡ read_current chip (byte b.now) }
{
    CurrentSensor {
        placement: placement(b),
        pin: Pin(b[5], chip),
        imin: Deciamps(word(b, 7)),
        imax: Deciamps(word(b, 9)),
    }
}

// 09h and 0Ah, before their blocks, and the same fields of 0Dh
pub fn device(b: &[u8], chip: Chip) -> BusDevice
    requires { 8 ≤ length b.now }
    ensures { result ≡ read_device chip (byte b.now) }
{
    let bus = b[5] % 16;
    BusDevice {
        placement: placement(b),
        bus,
        address: address(bus, b[6], chip),
    }
}

// 0Dh, before its blocks
pub fn external(b: &[u8], chip: Chip) -> ExternalRgb
    requires { 9 ≤ length b.now }
    ensures { result ≡ read_external chip (byte b.now) }
{
    ExternalRgb {
        device: device(b, chip),
        identifier: b[8],
    }
}

// 0Eh
pub fn rgb(b: &[u8], chip: Chip) -> RgbLed
    requires { 8 ≤ length b.now }
    ensures { result ≡ read_rgb chip (byte b.now) }
{
    RgbLed {
        placement: placement(b),
        red: Pin(b[5], chip),
        green: Pin(b[6], chip),
        blue: Pin(b[7], chip),
    }
}

// The description: the slice is the whole table.
pub fn description(t: &[u8], chip: Chip) -> Description
    requires { 12 ≤ length t.now }
    ensures { result ≡ read_description chip (byte t.now) }
{
    Description {
        device: t[3],
        string: t[4],
        serial: u32::from(t[5]) + 256 * u32::from(t[6]) + 65536 * u32::from(t[7]),
        spwr: 128 <= t[8],
        power: FourMilliamps(t[8] % 128),
        revision0: optional(t[9], chip),
        revision1: optional(t[10], chip),
        revision2: optional(t[11], chip),
    }
}

// What every kind begins with.
pub fn placement(b: &[u8]) -> Placement
    requires { 5 ≤ length b.now }
    ensures { result ≡ read_placement (byte b.now) }
{
    Placement {
        string: b[0],
        x: Centimetres(b[1]),
        y: Centimetres(b[2]),
        z: Centimetres(b[3]),
        zone: b[4],
    }
}

// By the bus type: SPI has a chip select, every other code a bus address.
fn address(bus: u8, b: u8, chip: Chip) -> Address
    ensures { result ≡ pick_address chip (eqb bus 3) b }
{
    if bus == 3 {
        Address::Select(Pin(b, chip))
    } else {
        Address::Bus(b / 2)
    }
}

// A place that may be unused.
pub fn optional(b: u8, chip: Chip) -> Option<Pin>
    ensures { result ≡ optional_of chip b }
{
    if b == 255 { None } else { Some(Pin(b, chip)) }
}

fn lamp(b: &[u8], i: usize, chip: Chip) -> Lamp
    requires { i + 1 < length b.now }
    ensures { result ≡ read_lamp chip (byte b.now) i }
{
    Lamp {
        pin: optional(b[i], chip),
        colour: b[i + 1] / 16,
        purpose: b[i + 1] % 16,
    }
}
