// What a record breaks by itself: 4, 5, 10 of the description, 8, 9, 23 and 10 of each kind of element (8 of 09h, 0Ah and 0Dh
// is found in `blocks`). One place for the reader and the writer. The first rule that is broken is the error.
#![tactic(auto)]

ghost use Rattle.std.specs.Prelude.{◌≡◌, List, ℕ, ◌≤◌, length};
ghost use Rattle.format.specs.Slots.{byte};
ghost use Rattle.format.specs.Records.{Record, digital, analogue, fan, led, water, pump, voltage, current, zone, string, rgb, element_of};
ghost use Rattle.format.specs.Records.{text_of};
ghost use Rattle.format.specs.Rules.{numbered, first_broken, own_rules, typed, powered, strapped, addressed, selected, scaled, shaped};
ghost use Rattle.format.specs.Rules.{coded, type_in_use, in_use, pinned, rises, coloured, chip_identifiers};
ghost use Rattle.format.specs.Pins.{among, unused};
ghost use Rattle.format.specs.declared.settings.Settings.{Settings};
ghost use Rattle.format.specs.Table.{description_breaks};
ghost use Rattle.format.specs.Utf16.{agrees, well_formed};
ghost use Rattle.format.specs.Answers.{fault_of};
ghost use Rattle.rules.specs.Broken.{kept_or, DeviceBreaks};

use format::answers::Rule;
use format::pins::{Chip, Pin, Use};
use format::records::{
    Address, AnalogueSensor, BusDevice, CurrentSensor, Description, DigitalSensor, Lamp, PwmFan,
    RgbLed, StatusLed, VoltageSensor, WaterLevel,
};
use format::settings::{Rules, Settings};
use format::units::Counts;
use pinsets::{allowed, allowed_or_unused};

// The rule, where it is not kept.
fn keep(kept: bool, rule: Rule) -> Result<(), Rule>
    ensures { result ≡ kept_or kept rule }
{
    if kept { Ok(()) } else { Err(rule) }
}

// The number of the rule that is broken, or 0: for the pass, whose state is numbers (a state that comes in pieces is lent by C).
pub fn fault(kept: Result<(), Rule>) -> u8
    ensures { result ≡ fault_of kept }
{
    match kept {
        Ok(()) => 0,
        Err(rule) => rule.number(),
    }
}

// 4
pub fn typed(d: Description) -> bool
    ensures { result ≡ typed d }
{
    (d.device == 1) | (d.device == 2) | (d.device == 3)
}

// 5
pub fn powered(d: Description) -> bool
    ensures { result ≡ powered d }
{
    d.spwr | (d.power.0 <= 125)
}

// 10
fn strapped(d: Description, chip: Chip) -> bool
    ensures { result ≡ strapped chip d }
{
    let a = d.revision0;
    let b = d.revision1;
    let c = d.revision2;
    allowed_or_unused(chip, Use::HardwareRevision, a)
        & (allowed_or_unused(chip, Use::HardwareRevision, b)
            & allowed_or_unused(chip, Use::HardwareRevision, c))
}

pub fn description_breaks(d: Description, chip: Chip) -> Result<(), Rule>
    ensures { fault_of result ≡ numbered (description_breaks chip d) }
{
    keep(typed(d), Rule::DeviceType)
        .and(keep(powered(d), Rule::Power))
        .and(keep(strapped(d, chip), Rule::Pin))
}

// 8, 9, 23 and 10 of a record of any kind, in their order.
fn own_breaks(shape: bool, codes: bool, used: bool, pins: bool) -> Result<(), Rule>
    ensures { (s : Settings) (x : Record) → shape ≡ shaped x → codes ≡ coded x → used ≡ in_use s.rules (element_of x) → pins
        ≡ pinned s.chip x → fault_of result ≡ numbered (first_broken (own_rules s x)) }
{
    keep(shape, Rule::Layout)
        .and(keep(codes, Rule::Code))
        .and(keep(used, Rule::Retired))
        .and(keep(pins, Rule::Pin))
}

// 9: the bus type has a code, and the address is of its kind.
fn addressed(bus: u8, a: Address) -> bool
    ensures { result ≡ addressed bus a }
{
    match a {
        Address::Bus(_) => bus < 3,
        Address::Select(_) => bus == 3,
    }
}

// 23: the bus type is in use by the named rules: all but block mode, or all.
pub fn in_use(bus: u8, rules: Rules) -> bool
    ensures { result ≡ type_in_use rules bus }
{
    match rules {
        Rules::Ordinary => bus != 2,
        Rules::Archive => true,
    }
}

// 10: a chip select's pin.
fn selected(a: Address, chip: Chip) -> bool
    ensures { result ≡ selected chip a }
{
    match a {
        Address::Bus(_) => true,
        Address::Select(p) => allowed(chip, Use::ChipSelect, p),
    }
}

// 01h
pub fn digital_breaks(d: DigitalSensor, s: Settings) -> Result<(), Rule>
    ensures { fault_of result ≡ numbered (first_broken (own_rules s (digital d))) }
{
    let chip = s.chip;
    let rules = s.rules;
    let a = d.address;
    own_breaks(
        true,
        addressed(d.bus, a),
        in_use(d.bus, rules),
        selected(a, chip),
    )
}

fn scaled(c: Counts) -> bool
    ensures { result ≡ scaled c }
{
    c.0 <= 1023
}

fn calibrated(a: AnalogueSensor) -> bool
    ensures { result ≡ coded (analogue a) }
{
    (a.thermal == 1)
        & (scaled(a.at0) & (scaled(a.at25) & (scaled(a.at50) & (scaled(a.at75) & scaled(a.at100)))))
}

// 02h
pub fn analogue_breaks(a: AnalogueSensor, s: Settings) -> Result<(), Rule>
    ensures { fault_of result ≡ numbered (first_broken (own_rules s (analogue a))) }
{
    let chip = s.chip;
    let p = a.pin;
    own_breaks(
        true,
        calibrated(a),
        true,
        allowed(chip, Use::AnaloguePin, p),
    )
}

pub fn unused(p: Option<Pin>) -> bool
    ensures { result ≡ unused p }
{
    match p {
        None => true,
        Some(_) => false,
    }
}

fn rises(p: Pin, q: Option<Pin>) -> bool
    ensures { result ≡ rises p q }
{
    match q {
        None => true,
        Some(r) => p.0 < r.0,
    }
}

// 03h and 06h
pub fn fan_breaks(f: PwmFan, s: Settings) -> Result<(), Rule>
    ensures { (fault_of result ≡ numbered (first_broken (own_rules s (fan f)))) × (fault_of result ≡ numbered (first_broken (own_rules s (pump f)))) }
{
    let chip = s.chip;
    let p = f.pwm;
    let q = f.tachometer;
    let coded = !unused(q) | (f.ppr == 0);
    let pinned = allowed(chip, Use::FanPin, p)
        & (allowed_or_unused(chip, Use::FanPin, q) & rises(p, q));
    own_breaks(true, coded, true, pinned)
}

fn coloured(l: Lamp) -> bool
    ensures { result ≡ coloured l }
{
    let p = l.pin;
    unused(p) | ((1 <= l.colour) & (l.colour <= 5) & (l.purpose <= 4))
}

// 04h
pub fn led_breaks(l: StatusLed, s: Settings) -> Result<(), Rule>
    ensures { fault_of result ≡ numbered (first_broken (own_rules s (led l))) }
{
    let chip = s.chip;
    let a = l.one;
    let b = l.two;
    let c = l.three;
    let p = a.pin;
    let q = b.pin;
    let r = c.pin;
    let coded = coloured(a) & (coloured(b) & coloured(c));
    let pinned = allowed_or_unused(chip, Use::StatusLed, p)
        & (allowed_or_unused(chip, Use::StatusLed, q) & allowed_or_unused(chip, Use::StatusLed, r));
    own_breaks(true, coded, true, pinned)
}

// 05h
pub fn water_breaks(w: WaterLevel, s: Settings) -> Result<(), Rule>
    ensures { fault_of result ≡ numbered (first_broken (own_rules s (water w))) }
{
    let chip = s.chip;
    let p = w.pin;
    let coded = scaled(w.full) & (scaled(w.empty) & scaled(w.warning));
    own_breaks(true, coded, true, allowed(chip, Use::AnaloguePin, p))
}

// 07h
pub fn voltage_breaks(v: VoltageSensor, s: Settings) -> Result<(), Rule>
    ensures { fault_of result ≡ numbered (first_broken (own_rules s (voltage v))) }
{
    let chip = s.chip;
    let p = v.pin;
    own_breaks(true, true, true, allowed(chip, Use::AnaloguePin, p))
}

// 08h
pub fn current_breaks(c: CurrentSensor, s: Settings) -> Result<(), Rule>
    ensures { fault_of result ≡ numbered (first_broken (own_rules s (current c))) }
{
    let chip = s.chip;
    let p = c.pin;
    own_breaks(true, true, true, allowed(chip, Use::AnaloguePin, p))
}

// 9: a chip of Table 28.
pub fn identified(chip: u8) -> bool
    ensures { result ≡ among chip chip_identifiers }
{
    (1 <= chip) & (chip <= 3)
}

// 09h, where `filled` says that each speed block has a pair; 0Ah, with true; 0Dh, where it says that its chip is identified
pub fn device_breaks(d: BusDevice, filled: bool, s: Settings) -> Result<(), Rule>
    ensures { DeviceBreaks s d filled (fault_of result) }
{
    let chip = s.chip;
    let rules = s.rules;
    let a = d.address;
    own_breaks(
        true,
        addressed(d.bus, a) & filled,
        in_use(d.bus, rules),
        selected(a, chip),
    )
}

// 0Bh, of all bytes after the header: 30 bytes with it.
pub fn zone_breaks(part: &[u8]) -> Result<(), Rule>
    ensures { (s : Settings) → fault_of result ≡ numbered (first_broken (own_rules s (zone part.now))) }
{
    own_breaks(part.len() == 27, true, true, true)
}

// A unit is a low surrogate where the one before it is a high surrogate, and only there.
pub fn agrees(high: bool, low: bool) -> bool
    ensures { result ≡ agrees high low }
{
    if high { low } else { !low }
}

// 9, of a text: UTF-16, low byte first. The upper six bits of a unit tell what it is: 54 a high surrogate, 55 a low one. No unit
// branches, for speed.
pub fn well_formed(text: &[u8]) -> bool
    ensures { result ≡ well_formed text.now }
{
    let count = text.len() / 2;
    let mut good = text.len() % 2 == 0;
    let mut high = false;
    for i in 0..count {
        let top = text[2 * i + 1] / 4;
        good = good & agrees(high, top == 55);
        high = top == 54;
    }
    good & !high
}

// 0Ch, where there is room for its number: that it is not 0, and what is known of its text.
pub fn text_rules(number: u8, good: bool) -> Result<(), Rule>
    ensures { (s : Settings) (c : List ℕ) → 3 ≤ length c → number ≡ byte c 0 → good ≡ well_formed (text_of c) → fault_of result
        ≡ numbered (first_broken (own_rules s (string c))) }
{
    own_breaks(true, (number != 0) & good, true, true)
}

// 0Ch, of all bytes after the header: its number and two bytes more, and the number not 0; then its text.
pub fn text_breaks(part: &[u8]) -> Result<(), Rule>
    ensures { (s : Settings) → fault_of result ≡ numbered (first_broken (own_rules s (string part.now))) }
{
    if part.len() < 3 {
        return Err(Rule::Layout);
    }
    text_rules(part[0], well_formed(&part[3..]))
}

// 0Eh
pub fn rgb_breaks(c: RgbLed, s: Settings) -> Result<(), Rule>
    ensures { fault_of result ≡ numbered (first_broken (own_rules s (rgb c))) }
{
    let chip = s.chip;
    let r = c.red;
    let g = c.green;
    let b = c.blue;
    let pinned = allowed(chip, Use::FanPin, r)
        & (allowed(chip, Use::FanPin, g)
            & (allowed(chip, Use::FanPin, b) & ((r.0 < g.0) & (g.0 < b.0))));
    own_breaks(true, true, true, pinned)
}
