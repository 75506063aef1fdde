// The records of a table. They hold no revision, no length and no reserved place: the layout supplies these.
use crate::pins::Pin;
use crate::units::{Centimetres, Counts, Deciamps, Decivolts, Degrees, FourMilliamps, Rpm};

// The table description (000, Table 4).
#[derive(Clone, Copy)]
pub struct Description {
    pub device: u8,
    pub string: u8,
    pub serial: u32,
    pub spwr: bool,
    pub power: FourMilliamps,
    pub revision0: Option<Pin>,
    pub revision1: Option<Pin>,
    pub revision2: Option<Pin>,
}

// What every element but a string and a zone descriptor begins with: its name, its position and its zone.
#[derive(Clone, Copy)]
pub struct Placement {
    pub string: u8,
    pub x: Centimetres,
    pub y: Centimetres,
    pub z: Centimetres,
    pub zone: u8,
}

// A device address: a seven-bit bus address or a chip select pin, by the bus type (000, Tables 9 and 10).
#[derive(Clone, Copy)]
pub enum Address {
    Bus(u8),
    Select(Pin),
}

// 01h (000, Table 11). The two registers are the device's; the two values are what is read from them.
#[derive(Clone, Copy)]
pub struct DigitalSensor {
    pub placement: Placement,
    pub bus: u8,
    pub address: Address,
    pub lsb: u16,
    pub msb: u16,
    pub minvalue: u16,
    pub mintemp: Degrees,
    pub maxvalue: u16,
    pub maxtemp: Degrees,
}

// 02h (000, Table 12): the converter's count at each of five temperatures.
#[derive(Clone, Copy)]
pub struct AnalogueSensor {
    pub placement: Placement,
    pub thermal: u8,
    pub pin: Pin,
    pub at0: Counts,
    pub at25: Counts,
    pub at50: Counts,
    pub at75: Counts,
    pub at100: Counts,
}

// 03h, and 06h (000, Table 14 and 8.9).
#[derive(Clone, Copy)]
pub struct PwmFan {
    pub placement: Placement,
    pub pwm: Pin,
    pub tachometer: Option<Pin>,
    pub ppr: u8,
    pub minrpm: Rpm,
    pub maxrpm: Rpm,
    pub duty: u8,
}

// One of the three lamps of a status LED.
#[derive(Clone, Copy)]
pub struct Lamp {
    pub pin: Option<Pin>,
    pub colour: u8,
    pub purpose: u8,
}

// 04h (000, Table 15).
#[derive(Clone, Copy)]
pub struct StatusLed {
    pub placement: Placement,
    pub one: Lamp,
    pub two: Lamp,
    pub three: Lamp,
}

// 05h (000, Table 18): the converter's count at each of three levels.
#[derive(Clone, Copy)]
pub struct WaterLevel {
    pub placement: Placement,
    pub pin: Pin,
    pub full: Counts,
    pub empty: Counts,
    pub warning: Counts,
}

// 07h (000, Table 19).
#[derive(Clone, Copy)]
pub struct VoltageSensor {
    pub placement: Placement,
    pub pin: Pin,
    pub vmax: Decivolts,
    pub vmin: Decivolts,
}

// 08h (000, Table 20).
#[derive(Clone, Copy)]
pub struct CurrentSensor {
    pub placement: Placement,
    pub pin: Pin,
    pub imin: Deciamps,
    pub imax: Deciamps,
}

// 09h and 0Ah before their blocks, and what 0Dh has in common with them (000, Tables 21, 24 and 27).
#[derive(Clone, Copy)]
pub struct BusDevice {
    pub placement: Placement,
    pub bus: u8,
    pub address: Address,
}

// 0Dh before its blocks (000, Table 27), with the identifier of its chip (Table 28).
#[derive(Clone, Copy)]
pub struct ExternalRgb {
    pub device: BusDevice,
    pub identifier: u8,
}

// 0Eh (000, Table 26).
#[derive(Clone, Copy)]
pub struct RgbLed {
    pub placement: Placement,
    pub red: Pin,
    pub green: Pin,
    pub blue: Pin,
}

// A register pair (000, Table 23).
#[derive(Clone, Copy)]
pub struct RegisterPair {
    pub address: u16,
    pub data: u16,
}

// An element of each of the fourteen kinds. What varies in length is handed on beside it, as the element's part: the
// blocks of a controller, of a tachometer and of an external RGB LED, and of a zone descriptor and a string all bytes after the
// header.
#[derive(Clone, Copy)]
pub enum Element {
    Digital(DigitalSensor),
    Analogue(AnalogueSensor),
    Fan(PwmFan),
    Led(StatusLed),
    Water(WaterLevel),
    Pump(PwmFan),
    Voltage(VoltageSensor),
    Current(CurrentSensor),
    Controller(BusDevice),
    Tachometer(BusDevice),
    Zone,
    Text,
    External(ExternalRgb),
    Rgb(RgbLed),
}
