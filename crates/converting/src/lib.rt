// Counts into readings: currents and voltages between their two ends, temperatures along five calibration points, pulses into RPM.
#![tactic(auto)]

ghost use Rattle.std.specs.Prelude.{◌≡◌, true, cond, ◌≤◌, ◌<◌};
ghost use Rattle.converting.specs.Outcomes.{outcome_of, deciamps, decivolts};
ghost use Rattle.converting.specs.Rounding.{Nearest};
ghost use Rattle.converting.specs.Conversions.{weighed, points, after, strict, apart, Linear, Temperature, Speed};
ghost use Rattle.converting.specs.Formula.{step, course, temperature_of, meant};

pub mod units;

use crate::units::{ReadRpm, Tenths};
use format::answers::Rule;
use format::units::{Counts, Deciamps, Decivolts};

// What a count is read as, with its unit; or that it lies under 0 or over 100 degrees.
#[derive(Clone, Copy)]
pub enum Converted {
    Temperature(Tenths),
    Current(Deciamps),
    Voltage(Decivolts),
    Speed(ReadRpm),
    Under,
    Over,
}

// The same as plain numbers, for text and tallies.
#[derive(Clone, Copy)]
pub enum Outcome {
    Reading(u32),
    Under,
    Over,
}

// A refusal, of whatever type, is handed on as it is.
pub fn told<E>(answer: Result<Converted, E>) -> Result<Outcome, E>
    ensures { result ≡ outcome_of answer }
{
    Ok(match answer? {
        Converted::Temperature(t) => Outcome::Reading(u32::from(t.0)),
        Converted::Current(c) => Outcome::Reading(u32::from(c.0)),
        Converted::Voltage(v) => Outcome::Reading(u32::from(v.0)),
        Converted::Speed(s) => Outcome::Reading(s.0),
        Converted::Under => Outcome::Under,
        Converted::Over => Outcome::Over,
    })
}

// The converter's counts at 0, 25, 50, 75 and 100 degrees.
#[derive(Clone, Copy)]
pub struct Calibration {
    pub at0: Counts,
    pub at25: Counts,
    pub at50: Counts,
    pub at75: Counts,
    pub at100: Counts,
}

// From the low end at 0 to the high end at 1023, to the nearest.
fn between(low: u16, high: u16, count: u32) -> u16
    requires { count ≤ 1023 }
    ensures { Nearest (weighed low high count) 1023 result }
{
    ((2 * ((low as u32) * (1023 - count) + (high as u32) * count) + 1023) / 2046) as u16
}

pub fn current(imin: Deciamps, imax: Deciamps, count: u32) -> Result<Converted, Rule>
    ensures { Linear deciamps imin.0 imax.0 count result }
{
    if 1023 < count {
        return Err(Rule::NoReading);
    }
    Ok(Converted::Current(Deciamps(between(imin.0, imax.0, count))))
}

pub fn voltage(vmin: Decivolts, vmax: Decivolts, count: u32) -> Result<Converted, Rule>
    ensures { Linear decivolts vmin.0 vmax.0 count result }
{
    if 1023 < count {
        return Err(Rule::NoReading);
    }
    Ok(Converted::Voltage(Decivolts(between(u16::from(vmin.0), u16::from(vmax.0), count) as u8)))
}

// Of the pulses in one second.
pub fn speed(ppr: u8, pulses: u32) -> Result<Converted, Rule>
    ensures { Speed ppr pulses result }
{
    if 65535 < pulses {
        return Err(Rule::TraceLine);
    }
    if ppr == 0 {
        return Err(Rule::NoReading);
    }
    Ok(Converted::Speed(ReadRpm(60 * pulses / u32::from(ppr))))
}

fn after(up: bool, a: u16, b: u16) -> bool
    ensures { result ≡ after up a b }
{
    if up { a < b } else { b < a }
}

fn strict(up: bool, p: Calibration) -> bool
    ensures { result ≡ strict up (points p) }
{
    after(up, p.at0.0, p.at25.0)
        & (after(up, p.at25.0, p.at50.0)
            & (after(up, p.at50.0, p.at75.0) & after(up, p.at75.0, p.at100.0)))
}

fn apart(a: u16, b: u16) -> u32
    ensures { (result ≡ apart a b) × (result ≤ 65535) }
{
    u32::from(a.abs_diff(b))
}

// A count between two neighbouring points, of which the first stands at s tenths.
fn step(s: u32, a: u16, b: u16, c: u16) -> Tenths
    requires { (s ≤ 750) × (0 < apart a b) × (apart a c ≤ apart a b) }
    ensures { (result.0 ≡ step s a b c) × (result.0 ≤ 1000) }
{
    let d = apart(a, b);
    Tenths((s + (2 * (250 * apart(a, c)) + d) / (2 * d)) as u16)
}

// 1 for a point that the count comes after.
fn passed(up: bool, b: u16, c: u16) -> usize
    ensures { (result ≡ cond (after up b c) 1 0) × (result ≤ 1) }
{
    if after(up, b, c) { 1 } else { 0 }
}

// A count along a calibration that goes one way: in the interval behind the points that it comes after, which are counted and not
// looked for, as where the next count falls is anyone's guess.
fn course(up: bool, p: Calibration, c: u16) -> u16
    requires { strict up (points p) ≡ true }
    ensures { meant result ≡ course up (points p) c }
{
    if after(up, c, p.at0.0) {
        return 1001;
    }
    if after(up, p.at100.0, c) {
        return 1002;
    }
    let i = passed(up, p.at25.0, c) + passed(up, p.at50.0, c) + passed(up, p.at75.0, c);
    let ps = [p.at0.0, p.at25.0, p.at50.0, p.at75.0, p.at100.0];
    let t = step(250 * (i as u32), ps[i], ps[i + 1], c);
    t.0
}

// The temperature of a count as one number: 0 to 1000 tenths, 1001 for under 0, 1002 for over 100, 1003 where there is no conversion.
// A number is answered in a register, `Converted` through memory.
pub fn coded(p: Calibration, c: u16) -> u16
    requires { c ≤ 1023 }
    ensures { meant result ≡ temperature_of p c }
{
    if strict(true, p) {
        return course(true, p, c);
    }
    if strict(false, p) {
        return course(false, p, c);
    }
    1003
}

// What such a number means.
#[tactic(auto, unfolding(crate::specs::Formula::meant))]
pub fn meaning(t: u16) -> Result<Converted, Rule>
    ensures { result ≡ meant t }
{
    match t {
        0..=1000 => Ok(Converted::Temperature(Tenths(t))),
        1001 => Ok(Converted::Under),
        1002 => Ok(Converted::Over),
        _ => Err(Rule::NoReading),
    }
}

pub fn temperature(p: Calibration, count: u32) -> Result<Converted, Rule>
    ensures { Temperature p count result }
{
    if 1023 < count {
        return Err(Rule::NoReading);
    }
    meaning(coded(p, count as u16))
}
