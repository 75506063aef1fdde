// The fixed bytes of each kind in a lent buffer, from a place on, its header not counted, with every reserved place at zero.
ghost use Rattle.std.specs.Prelude.{◌≡◌, true, ◌++◌, ◌+◌, ◌≤◌, length};
ghost use Rattle.format.specs.Slots.{byte_of, halves, roomy, written};
ghost use Rattle.format.specs.Layout.{address, placement, fixed};
ghost use Rattle.format.specs.Writing.{overwritten};
ghost use Rattle.format.specs.declared.records.Element.TheVariants.{Digital, Analogue, Fan, Led, Water, Voltage, Current, Controller};
ghost use Rattle.format.specs.declared.records.Element.TheVariants.{Tachometer, External, Rgb};
ghost use Rattle.laying.specs.Laid.{Roomed, Laid};

use crate::copy_into;
use elements::byte_of;
use format::records::{
    Address, AnalogueSensor, BusDevice, CurrentSensor, DigitalSensor, ExternalRgb, Lamp, Placement,
    PwmFan, RgbLed, StatusLed, VoltageSensor, WaterLevel,
};

pub const RESERVED: u8 = 0;

// A bus address stands in bits 7-1, a chip select is the whole byte.
fn address_byte(a: Address) -> u8
    requires { roomy (address a) ≡ true }
    ensures { result ≡ byte_of (address a) }
{
    match a {
        Address::Bus(n) => 2 * n,
        Address::Select(p) => p.0,
    }
}

// The colour of a lamp in bits 7-4, its purpose in bits 3-0.
fn colour_byte(l: Lamp) -> u8
    requires { roomy (halves l.colour l.purpose) ≡ true }
    ensures { result ≡ byte_of (halves l.colour l.purpose) }
{
    16 * l.colour + l.purpose
}

// A placement, and behind it the kind's own bytes.
fn put_placed(buf: &mut [u8], at: usize, p: Placement, own: &[u8])
    requires { at + 5 + length own.now ≤ length buf.old }
    ensures { buf.new ≡ overwritten at (written (placement p) ++ own.now) buf.old }
{
    copy_into(buf, at, &[p.string, p.x.0, p.y.0, p.z.0, p.zone]);
    copy_into(buf, at + 5, own);
}

// A device on a bus: its placement, BUS TYPE and DEVICE ADDRESS, and behind them the kind's own bytes.
fn put_device(buf: &mut [u8], at: usize, d: BusDevice, own: &[u8])
    requires { (roomy (address d.address) ≡ true) × (at + 8 + length own.now ≤ length buf.old) }
    ensures { buf.new ≡ overwritten at (written (fixed (Controller d)) ++ own.now) buf.old }
{
    let p = d.placement;
    let a = d.address;
    let place = address_byte(a);
    put_placed(buf, at, p, &[d.bus, place, RESERVED]);
    copy_into(buf, at + 8, own);
}

// 01h
pub fn digital(buf: &mut [u8], at: usize, d: DigitalSensor)
    requires { Roomed (Digital d) at buf.old }
    ensures { Laid (Digital d) at buf.old buf.new }
{
    let p = d.placement;
    let a = d.address;
    let own = [
        (d.lsb % 256) as u8,
        (d.lsb / 256) as u8,
        (d.msb % 256) as u8,
        (d.msb / 256) as u8,
        (d.minvalue % 256) as u8,
        (d.minvalue / 256) as u8,
        d.mintemp.0,
        (d.maxvalue % 256) as u8,
        (d.maxvalue / 256) as u8,
        d.maxtemp.0,
    ];
    let device = BusDevice {
        placement: p,
        bus: d.bus,
        address: a,
    };
    put_device(buf, at, device, &own);
}

// 02h
pub fn analogue(buf: &mut [u8], at: usize, a: AnalogueSensor)
    requires { Roomed (Analogue a) at buf.old }
    ensures { Laid (Analogue a) at buf.old buf.new }
{
    let p = a.placement;
    let own = [
        a.thermal,
        a.pin.0,
        (a.at0.0 % 256) as u8,
        (a.at0.0 / 256) as u8,
        (a.at25.0 % 256) as u8,
        (a.at25.0 / 256) as u8,
        (a.at50.0 % 256) as u8,
        (a.at50.0 / 256) as u8,
        (a.at75.0 % 256) as u8,
        (a.at75.0 / 256) as u8,
        (a.at100.0 % 256) as u8,
        (a.at100.0 / 256) as u8,
    ];
    put_placed(buf, at, p, &own);
}

// 03h and 06h
pub fn fan(buf: &mut [u8], at: usize, f: PwmFan)
    requires { Roomed (Fan f) at buf.old }
    ensures { Laid (Fan f) at buf.old buf.new }
{
    let p = f.placement;
    let t = f.tachometer;
    let own = [
        f.pwm.0,
        byte_of(t),
        f.ppr,
        (f.minrpm.0 % 256) as u8,
        (f.minrpm.0 / 256) as u8,
        (f.maxrpm.0 % 256) as u8,
        (f.maxrpm.0 / 256) as u8,
        f.duty,
    ];
    put_placed(buf, at, p, &own);
}

// 04h
pub fn led(buf: &mut [u8], at: usize, l: StatusLed)
    requires { Roomed (Led l) at buf.old }
    ensures { Laid (Led l) at buf.old buf.new }
{
    let place = l.placement;
    let one = l.one;
    let two = l.two;
    let three = l.three;
    let p = one.pin;
    let q = two.pin;
    let r = three.pin;
    let own = [
        byte_of(p),
        colour_byte(one),
        byte_of(q),
        colour_byte(two),
        byte_of(r),
        colour_byte(three),
    ];
    put_placed(buf, at, place, &own);
}

// 05h
pub fn water(buf: &mut [u8], at: usize, w: WaterLevel)
    requires { Roomed (Water w) at buf.old }
    ensures { Laid (Water w) at buf.old buf.new }
{
    let p = w.placement;
    let full = w.full.0;
    let empty = w.empty.0;
    let warning = w.warning.0;
    let own = [
        w.pin.0,
        (full % 256) as u8,
        (full / 256) as u8,
        (empty % 256) as u8,
        (empty / 256) as u8,
        (warning % 256) as u8,
        (warning / 256) as u8,
    ];
    put_placed(buf, at, p, &own);
}

// 07h
pub fn voltage(buf: &mut [u8], at: usize, v: VoltageSensor)
    requires { Roomed (Voltage v) at buf.old }
    ensures { Laid (Voltage v) at buf.old buf.new }
{
    let p = v.placement;
    put_placed(buf, at, p, &[v.pin.0, v.vmax.0, v.vmin.0]);
}

// 08h
pub fn current(buf: &mut [u8], at: usize, c: CurrentSensor)
    requires { Roomed (Current c) at buf.old }
    ensures { Laid (Current c) at buf.old buf.new }
{
    let p = c.placement;
    let least = c.imin.0;
    let most = c.imax.0;
    let own = [
        c.pin.0,
        RESERVED,
        (least % 256) as u8,
        (least / 256) as u8,
        (most % 256) as u8,
        (most / 256) as u8,
    ];
    put_placed(buf, at, p, &own);
}

// 09h
pub fn controller(buf: &mut [u8], at: usize, d: BusDevice)
    requires { Roomed (Controller d) at buf.old }
    ensures { Laid (Controller d) at buf.old buf.new }
{
    put_device(buf, at, d, &[]);
}

// 0Ah
pub fn tachometer(buf: &mut [u8], at: usize, d: BusDevice)
    requires { Roomed (Tachometer d) at buf.old }
    ensures { Laid (Tachometer d) at buf.old buf.new }
{
    put_device(buf, at, d, &[RESERVED]);
}

// 0Dh
pub fn external(buf: &mut [u8], at: usize, x: ExternalRgb)
    requires { Roomed (External x) at buf.old }
    ensures { Laid (External x) at buf.old buf.new }
{
    let d = x.device;
    put_device(buf, at, d, &[x.identifier]);
}

// 0Eh
pub fn rgb(buf: &mut [u8], at: usize, c: RgbLed)
    requires { Roomed (Rgb c) at buf.old }
    ensures { Laid (Rgb c) at buf.old buf.new }
{
    let p = c.placement;
    put_placed(buf, at, p, &[c.red.0, c.green.0, c.blue.0]);
}
