// What the writer asks of an element with its part before it writes: 8, 9, 23 and 10, which are found by the functions that the
// reader calls too.
#![tactic(auto)]

ghost use Rattle.std.specs.Prelude.{◌≡◌, true, false, length, eqb};
ghost use Rattle.format.specs.Answers.{fault_of};
ghost use Rattle.format.specs.Rules.{numbered};
ghost use Rattle.format.specs.Writing.{part_breaks};
ghost use Rattle.format.specs.declared.records.Element.TheVariants.{Controller, Tachometer, External};
ghost use Rattle.rules.specs.Broken.{or_else, DeviceBreaks};

use blocks::Part;
use format::answers::Rule;
use format::records::{BusDevice, Element, ExternalRgb};
use format::settings::Settings;

// Of a kind without a part: 8 where there is one.
fn unless_empty(part: &[u8], own: Result<(), Rule>) -> Result<(), Rule>
    ensures { fault_of result ≡ or_else (eqb (length part.now) 0) 8 (fault_of own) }
{
    if part.len() == 0 {
        own
    } else {
        Err(Rule::Layout)
    }
}

// 09h, 0Ah and 0Dh, by their fixed fields and what their part says.
fn device_breaks(d: BusDevice, part: Part, s: Settings) -> Result<(), Rule>
    ensures { (part.whole ≡ false → fault_of result ≡ 8) × (part.whole ≡ true → DeviceBreaks s d part.full (fault_of result)) }
{
    if !part.whole {
        return Err(Rule::Layout);
    }
    rules::device_breaks(d, part.full, s)
}

// 09h
fn controller_breaks(d: BusDevice, part: &[u8], s: Settings) -> Result<(), Rule>
    ensures { fault_of result ≡ numbered (part_breaks s (Controller d) part.now) }
{
    device_breaks(d, blocks::speed_blocks(part), s)
}

// 0Ah
fn tachometer_breaks(d: BusDevice, part: &[u8], s: Settings) -> Result<(), Rule>
    ensures { fault_of result ≡ numbered (part_breaks s (Tachometer d) part.now) }
{
    device_breaks(d, blocks::pairs_blocks(part, 2), s)
}

// 0Dh, whose chip must be identified
fn external_breaks(x: ExternalRgb, part: &[u8], s: Settings) -> Result<(), Rule>
    ensures { fault_of result ≡ numbered (part_breaks s (External x) part.now) }
{
    let d = x.device;
    let blocks = blocks::pairs_blocks(part, 3);
    let said = Part {
        whole: blocks.whole,
        full: rules::identified(x.identifier),
    };
    device_breaks(d, said, s)
}

// The first of 8, 9, 23 and 10 that an element with its part breaks.
pub fn part_breaks(e: Element, part: &[u8], s: Settings) -> Result<(), Rule>
    ensures { fault_of result ≡ numbered (part_breaks s e part.now) }
{
    match e {
        Element::Digital(d) => unless_empty(part, rules::digital_breaks(d, s)),
        Element::Analogue(a) => unless_empty(part, rules::analogue_breaks(a, s)),
        Element::Fan(f) => unless_empty(part, rules::fan_breaks(f, s)),
        Element::Led(l) => unless_empty(part, rules::led_breaks(l, s)),
        Element::Water(w) => unless_empty(part, rules::water_breaks(w, s)),
        Element::Pump(f) => unless_empty(part, rules::fan_breaks(f, s)),
        Element::Voltage(v) => unless_empty(part, rules::voltage_breaks(v, s)),
        Element::Current(c) => unless_empty(part, rules::current_breaks(c, s)),
        Element::Controller(d) => controller_breaks(d, part, s),
        Element::Tachometer(d) => tachometer_breaks(d, part, s),
        Element::Zone => rules::zone_breaks(part),
        Element::Text => rules::text_breaks(part),
        Element::External(x) => external_breaks(x, part, s),
        Element::Rgb(c) => unless_empty(part, rules::rgb_breaks(c, s)),
    }
}
