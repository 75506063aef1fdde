// What the bytes of an element that stands in a zone say of it alone: the first of 8, 9, 23 and 10 that it breaks, the pins
// that it claims, and those of the fan list that count through the table. The slices start after the element's header; pins are
// read and judged under the caller's settings.
#![tactic(auto)]

ghost use Rattle.std.specs.Prelude.{◌≡◌, true, false, ◌≤◌, length};
ghost use Rattle.format.specs.Slots.{byte};
ghost use Rattle.format.specs.Decode.{read_device};
ghost use Rattle.format.specs.Records.{fan, rgb};
ghost use Rattle.format.specs.FanList.{fan_pins};
ghost use Rattle.found.specs.Judged.{FansAre, finding, Together, Judged, DeviceFound};

use blocks::Part;
use claims::Claims;
use format::answers::Rule;
use format::records::{PwmFan, RgbLed};
use format::settings::Settings;

// The pins of the fan list that an element counts: the first and the last.
#[derive(Clone, Copy)]
pub struct Fans {
    pub first: u8,
    pub last: u8,
}

// What an element claims and counts that breaks no rule by itself.
#[derive(Clone, Copy)]
pub struct Found {
    pub claims: Claims,
    pub fans: Option<Fans>,
}

// PWM, and the tachometer where there is one.
fn fan_fans(f: PwmFan) -> Option<Fans>
    ensures { FansAre result (fan_pins (fan f)) }
{
    let first = f.pwm.0;
    match f.tachometer {
        None => Some(Fans { first, last: first }),
        Some(q) => Some(Fans { first, last: q.0 }),
    }
}

// Red to blue.
fn rgb_fans(c: RgbLed) -> Option<Fans>
    ensures { FansAre result (fan_pins (rgb c)) }
{
    Some(Fans {
        first: c.red.0,
        last: c.blue.0,
    })
}

// Of an element that breaks no rule by itself what it claims and counts; of any other the rule.
fn together(kept: Result<(), Rule>, claims: Claims, fans: Option<Fans>) -> Result<Found, Rule>
    ensures { Together kept claims fans (finding result) }
{
    kept.and(Ok(Found { claims, fans }))
}

// 01h
pub fn digital_found(b: &[u8], s: Settings) -> Result<Found, Rule>
    ensures { Judged s 1 b.now (finding result) }
{
    if b.len() != 18 {
        return Err(Rule::Layout);
    }
    let chip = s.chip;
    let d = fields::digital(b, chip);
    let a = d.address;
    together(rules::digital_breaks(d, s), claims::bus_claims(a), None)
}

// 02h
pub fn analogue_found(b: &[u8], s: Settings) -> Result<Found, Rule>
    ensures { Judged s 2 b.now (finding result) }
{
    if b.len() != 17 {
        return Err(Rule::Layout);
    }
    let chip = s.chip;
    let a = fields::analogue(b, chip);
    together(
        rules::analogue_breaks(a, s),
        claims::analogue_claims(a.pin),
        None,
    )
}

// 03h and 06h
pub fn fan_found(b: &[u8], s: Settings) -> Result<Found, Rule>
    ensures { Judged s 3 b.now (finding result) × Judged s 6 b.now (finding result) }
{
    if b.len() != 13 {
        return Err(Rule::Layout);
    }
    let chip = s.chip;
    let f = fields::fan(b, chip);
    together(rules::fan_breaks(f, s), claims::fan_claims(f), fan_fans(f))
}

// 04h
pub fn led_found(b: &[u8], s: Settings) -> Result<Found, Rule>
    ensures { Judged s 4 b.now (finding result) }
{
    if b.len() != 11 {
        return Err(Rule::Layout);
    }
    let chip = s.chip;
    let l = fields::led(b, chip);
    together(rules::led_breaks(l, s), claims::led_claims(l), None)
}

// 05h
pub fn water_found(b: &[u8], s: Settings) -> Result<Found, Rule>
    ensures { Judged s 5 b.now (finding result) }
{
    if b.len() != 12 {
        return Err(Rule::Layout);
    }
    let chip = s.chip;
    let w = fields::water(b, chip);
    together(
        rules::water_breaks(w, s),
        claims::analogue_claims(w.pin),
        None,
    )
}

// 07h
pub fn voltage_found(b: &[u8], s: Settings) -> Result<Found, Rule>
    ensures { Judged s 7 b.now (finding result) }
{
    if b.len() != 8 {
        return Err(Rule::Layout);
    }
    let chip = s.chip;
    let v = fields::voltage(b, chip);
    together(
        rules::voltage_breaks(v, s),
        claims::analogue_claims(v.pin),
        None,
    )
}

// 08h
pub fn current_found(b: &[u8], s: Settings) -> Result<Found, Rule>
    ensures { Judged s 8 b.now (finding result) }
{
    if b.len() != 11 {
        return Err(Rule::Layout);
    }
    let chip = s.chip;
    let c = fields::current(b, chip);
    together(
        rules::current_breaks(c, s),
        claims::analogue_claims(c.pin),
        None,
    )
}

// 09h, 0Ah and 0Dh: by their fixed bytes and what their part says.
pub fn device_found(b: &[u8], part: Part, s: Settings) -> Result<Found, Rule>
    requires { 8 ≤ length b.now }
    ensures { DeviceFound s (read_device s.chip (byte b.now)) part (finding result) }
{
    if !part.whole {
        return Err(Rule::Layout);
    }
    if !part.full {
        return Err(Rule::Code);
    }
    let chip = s.chip;
    let d = fields::device(b, chip);
    let a = d.address;
    together(
        rules::device_breaks(d, true, s),
        claims::bus_claims(a),
        None,
    )
}

// 09h
pub fn controller_found(b: &[u8], s: Settings) -> Result<Found, Rule>
    ensures { Judged s 9 b.now (finding result) }
{
    if b.len() < 8 {
        return Err(Rule::Layout);
    }
    device_found(b, blocks::read_speed_blocks(&b[8..]), s)
}

// 0Ah
pub fn tachometer_found(b: &[u8], s: Settings) -> Result<Found, Rule>
    ensures { Judged s 10 b.now (finding result) }
{
    if b.len() < 9 {
        return Err(Rule::Layout);
    }
    device_found(b, blocks::pairs_blocks(&b[9..], 2), s)
}

// 0Dh, whose chip must be identified
pub fn external_found(b: &[u8], s: Settings) -> Result<Found, Rule>
    ensures { Judged s 13 b.now (finding result) }
{
    if b.len() < 9 {
        return Err(Rule::Layout);
    }
    let blocks = blocks::pairs_blocks(&b[9..], 3);
    let part = Part {
        whole: blocks.whole,
        full: rules::identified(b[8]),
    };
    device_found(b, part, s)
}

// 0Eh
pub fn rgb_found(b: &[u8], s: Settings) -> Result<Found, Rule>
    ensures { Judged s 14 b.now (finding result) }
{
    if b.len() != 8 {
        return Err(Rule::Layout);
    }
    let chip = s.chip;
    let c = fields::rgb(b, chip);
    together(rules::rgb_breaks(c, s), claims::rgb_claims(c), rgb_fans(c))
}
