// Tenths of a degree of our own thermistor by a ready table: for the meter, which cannot divide.
#![tactic(auto)]

ghost use Rattle.std.specs.Prelude.{◌≡◌, ◌<◌, ◌≤◌};
ghost use Rattle.converting.specs.Conversions.{Temperature};
ghost use Rattle.converting.specs.Formula.{temperature_of, meant};
ghost use Rattle.thermistor.specs.Ready.{ours, owned, Ready};

mod tenths;

use crate::tenths::TENTHS;
use converting::{Calibration, Converted};
use format::answers::Rule;

// The ready table, to be lent: the compiler lays it out on the stack at each call of this one.
pub fn ready() -> [u16; 1024]
    ensures { Ready result }
{
    TENTHS
}

fn entry(table: &[u16; 1024], count: usize) -> u16
    requires { Ready table.now × (count < 1024) }
    ensures { meant result ≡ temperature_of ours count }
{
    table[count]
}

// The calibration 850, 700, 500, 320, 200, without a division.
pub fn ours(count: u32) -> Result<Converted, Rule>
    ensures { Temperature ours count result }
{
    if 1023 < count {
        return Err(Rule::NoReading);
    }
    let table = ready();
    converting::meaning(entry(&table, count as usize))
}

fn own(p: Calibration) -> bool
    ensures { result ≡ owned p }
{
    (p.at0.0 == 850)
        & ((p.at25.0 == 700) & ((p.at50.0 == 500) & ((p.at75.0 == 320) & (p.at100.0 == 200))))
}

// Any calibration: our own by the table, the others by the formula.
pub fn temperature(p: Calibration, count: u32) -> Result<Converted, Rule>
    ensures { Temperature p count result }
{
    if own(p) {
        return ours(count);
    }
    converting::temperature(p, count)
}

// The same as one number, by the table that is lent.
fn coded_by(table: &[u16; 1024], p: Calibration, c: u16) -> u16
    requires { Ready table.now × (c ≤ 1023) }
    ensures { meant result ≡ temperature_of p c }
{
    if own(p) {
        return entry(table, c as usize);
    }
    converting::coded(p, c)
}

// The same answer, by the table that is lent: for many counts.
pub fn temperature_by(table: &[u16; 1024], p: Calibration, count: u32) -> Result<Converted, Rule>
    requires { Ready table.now }
    ensures { Temperature p count result }
{
    if 1023 < count {
        return Err(Rule::NoReading);
    }
    converting::meaning(coded_by(table, p, count as u16))
}
