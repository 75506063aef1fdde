// One count without a trace: what it means at an element of a table.
#![tactic(auto)]

ghost use Rattle.std.specs.Prelude.{◌≡◌, ◌≤◌};
ghost use Rattle.metering.specs.Meters.{metered, metered_of, Short, Meters};
ghost use Rattle.metering.specs.Face.{place_of, packed_of, ReadingFor, OwnFor};

use converting::Outcome;
use format::answers::{Refusal, Rule};
use format::settings::Settings;

// The answer of element k to a count, or of a fan or a pump to the pulses in one second. The whole table is checked first.
pub fn reading(table: &[u8], k: usize, count: u64, settings: Settings) -> Result<Outcome, Refusal>
    ensures { Meters settings table.now k count (metered result) }
{
    let e = reader::element(table, k, settings)?;
    let answer = sensing::answer(sensing::sensor_of(e), shortened(count));
    at_zero(converting::told(answer))
}

// The same for the C face: beside 0 stands four times the reading, or 1 for under 0, 2 for over 100; beside a refusal its place.
pub fn packed_reading(table: &[u8], k: usize, count: u64, settings: Settings) -> u64
    ensures { ReadingFor settings table.now k count result }
{
    packed(reading(table, k, count, settings))
}

// The same answer of our own thermistor to a count, from the ready table alone: for the meter, which has no table and cannot divide.
pub fn packed_own(count: u64) -> u64
    ensures { OwnFor count result }
{
    packed(at_zero(converting::told(thermistor::ours(shortened(count)))))
}

// No conversion tells counts over 65,535 apart.
fn shortened(count: u64) -> u32
    ensures { Short count result }
{
    if count < 65536 { count as u32 } else { 65536 }
}

// A refusal of the element has the place 0.
fn at_zero(outcome: Result<Outcome, Rule>) -> Result<Outcome, Refusal>
    ensures { metered result ≡ metered_of outcome }
{
    outcome.map_err(|rule| rule.at(0))
}

fn packed(read: Result<Outcome, Refusal>) -> u64
    requires { place_of (metered read) ≤ 4096 }
    ensures { result ≡ packed_of (metered read) }
{
    match read {
        Ok(outcome) => beside(outcome),
        Err(refusal) => u64::from(refusal.rule.number()) + 256 * (refusal.place as u64),
    }
}

// Beside 0, what is read.
fn beside(outcome: Outcome) -> u64
    ensures { result ≡ packed_of (metered_of (Ok outcome)) }
{
    match outcome {
        Outcome::Reading(v) => 1024 * u64::from(v),
        Outcome::Under => 256,
        Outcome::Over => 512,
    }
}
