// 15: claims on pins, as sets of pins: pin i of the 25 in bit i.
#![tactic(auto)]

ghost use Rattle.std.specs.Prelude.{◌≡◌, true, List, [], ◌∷◌, ◌++◌, ◌<◌};
ghost use Rattle.format.specs.Pins.{allowed};
ghost use Rattle.format.specs.declared.pins.Chip.{Chip};
ghost use Rattle.format.specs.declared.pins.Use.TheVariants.{AnaloguePin};
ghost use Rattle.format.specs.Records.{fan, led, rgb};
ghost use Rattle.format.specs.Rules.{selected, pinned, strapped};
ghost use Rattle.format.specs.Claims.{Claim, claim, Made, made_at, alone, own, reference, on_bus, claims_of, first_claims};
ghost use Rattle.claims.specs.Taken.{ClaimsAre, HeldIs, IsSet, used_pin, on_pin, on_pins, own_three};

use format::pins::Pin;
use format::records::{Address, Description, PwmFan, RgbLed, StatusLed};
use pinsets::bit_of;

// The pins that one element claims alone, those that it claims jointly (shared pins and a chip select), and those that it
// claims alone twice.
#[derive(Clone, Copy)]
pub struct Claims {
    pub alone: u32,
    pub joint: u32,
    pub twice: u32,
}

// The pins claimed so far, and the place of the first clash; 65,536 where there is none.
#[derive(Clone, Copy)]
pub struct Held {
    pub alone: u32,
    pub joint: u32,
    pub clash: usize,
}

// Nothing.
pub fn no_claims() -> Claims
    ensures { ClaimsAre result [] }
{
    Claims {
        alone: 0,
        joint: 0,
        twice: 0,
    }
}

// A used pin's bit; no bit of an unused place.
fn used_bit(p: Option<Pin>) -> u32
    ensures { on_pin p ≡ true → IsSet result (used_pin p) }
{
    match p {
        None => 0,
        Some(q) => bit_of(q.0),
    }
}

// 01h, 09h, 0Ah, 0Dh: P0.3 and P0.4; or P0.0 to P0.2 and the chip select.
pub fn bus_claims(a: Address) -> Claims
    ensures { (c : Chip) → selected c a ≡ true → ClaimsAre result (on_bus a) }
{
    match a {
        Address::Bus(_) => Claims {
            alone: 0,
            joint: 0x18,
            twice: 0,
        },
        Address::Select(p) => Claims {
            alone: 0,
            joint: 0x07 | bit_of(p.0),
            twice: 0,
        },
    }
}

// 02h, 05h, 07h, 08h: P0.7, and its pin.
pub fn analogue_claims(p: Pin) -> Claims
    ensures { (c : Chip) → allowed c AnaloguePin p ≡ true → ClaimsAre result (reference ∷ own p ∷ []) }
{
    Claims {
        alone: bit_of(p.0),
        joint: 0x80,
        twice: 0,
    }
}

// 03h, 06h: PWM and tachometer.
pub fn fan_claims(f: PwmFan) -> Claims
    ensures { (c : Chip) → pinned c (fan f) ≡ true → ClaimsAre result (claims_of (fan f)) }
{
    let t = f.tachometer;
    Claims {
        alone: bit_of(f.pwm.0) | used_bit(t),
        joint: 0,
        twice: 0,
    }
}

// Three pins, any of which may be unused, or be the same.
fn three(p: Option<Pin>, q: Option<Pin>, r: Option<Pin>) -> Claims
    ensures { on_pins p q r ≡ true → ClaimsAre result (own_three p q r) }
{
    let a = used_bit(p);
    let b = used_bit(q);
    let c = used_bit(r);
    Claims {
        alone: a | b | c,
        joint: 0,
        twice: (a & b) | (a & c) | (b & c),
    }
}

// 04h: the lamps' pins.
pub fn led_claims(l: StatusLed) -> Claims
    ensures { (c : Chip) → pinned c (led l) ≡ true → ClaimsAre result (claims_of (led l)) }
{
    let a = l.one;
    let b = l.two;
    let c = l.three;
    let p = a.pin;
    let q = b.pin;
    let r = c.pin;
    three(p, q, r)
}

// 0Eh: red, green, blue.
pub fn rgb_claims(c: RgbLed) -> Claims
    ensures { (k : Chip) → pinned k (rgb c) ≡ true → ClaimsAre result (claims_of (rgb c)) }
{
    Claims {
        alone: bit_of(c.red.0) | bit_of(c.green.0) | bit_of(c.blue.0),
        joint: 0,
        twice: 0,
    }
}

// One element's claims after those before: what is claimed jointly clashes with what is held alone, and what is claimed
// alone with all.
pub fn claim(h: Held, c: Claims, at: usize) -> Held
    ensures { (before : List Made) (cs : List Claim) → at < 65536 → HeldIs h before → ClaimsAre c cs
        → HeldIs result (before ++ made_at at cs) }
{
    let hit = (c.joint & h.alone) | (c.alone & (h.alone | h.joint)) | c.twice;
    Held {
        alone: h.alone | c.alone,
        joint: h.joint | c.joint,
        clash: if (hit != 0) & (h.clash == 65536) {
            at
        } else {
            h.clash
        },
    }
}

// The fault LED claims P1.0.
fn fault_led() -> Held
    ensures { HeldIs result (made_at 0 (claim alone 0x10 ∷ [])) }
{
    Held {
        alone: 0x100,
        joint: 0,
        clash: 65536,
    }
}

// Then come hardware revision 0, 1, 2.
pub fn first_claims(d: Description) -> Held
    ensures { (c : Chip) → strapped c d ≡ true → HeldIs result (made_at 0 (first_claims d)) }
{
    let led = fault_led();
    let p = d.revision0;
    let q = d.revision1;
    let r = d.revision2;
    claim(led, three(p, q, r), 0)
}
