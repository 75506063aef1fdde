// The claims of an element that stands in a table, by its kind.
#![tactic(auto)]

ghost use Rattle.std.specs.Prelude.{◌≡◌, true};
ghost use Rattle.format.specs.Rules.{pinned};
ghost use Rattle.format.specs.Claims.{claims_of};
ghost use Rattle.format.specs.declared.pins.Chip.{Chip};
ghost use Rattle.claims.specs.Taken.{ClaimsAre};
ghost use Rattle.claiming.specs.Bare.{bare};

use claims::{Claims, analogue_claims, bus_claims, fan_claims, led_claims, no_claims, rgb_claims};
use format::records::Element;

// The pins of an element that keeps 10.
pub fn claims_of(e: Element) -> Claims
    ensures { (c : Chip) → pinned c (bare e) ≡ true → ClaimsAre result (claims_of (bare e)) }
{
    match e {
        Element::Digital(d) => {
            let a = d.address;
            bus_claims(a)
        }
        Element::Analogue(a) => {
            let p = a.pin;
            analogue_claims(p)
        }
        Element::Fan(f) => fan_claims(f),
        Element::Led(l) => led_claims(l),
        Element::Water(w) => {
            let p = w.pin;
            analogue_claims(p)
        }
        Element::Pump(f) => fan_claims(f),
        Element::Voltage(v) => {
            let p = v.pin;
            analogue_claims(p)
        }
        Element::Current(c) => {
            let p = c.pin;
            analogue_claims(p)
        }
        Element::Controller(d) => {
            let a = d.address;
            bus_claims(a)
        }
        Element::Tachometer(d) => {
            let a = d.address;
            bus_claims(a)
        }
        Element::Zone => no_claims(),
        Element::Text => no_claims(),
        Element::External(x) => {
            let d = x.device;
            let a = d.address;
            bus_claims(a)
        }
        Element::Rgb(r) => rgb_claims(r),
    }
}
