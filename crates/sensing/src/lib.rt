// What an element's count is read as, by its record.
#![tactic(auto)]

ghost use Rattle.std.specs.Prelude.{◌≡◌, Some};
ghost use Rattle.converting.specs.declared.Calibration.{Calibration};
ghost use Rattle.sensing.specs.declared.Sensor.TheVariants.{Points};
ghost use Rattle.converting.specs.Conversions.{Temperature};
ghost use Rattle.thermistor.specs.Ready.{Ready};
ghost use Rattle.sensing.specs.Answers.{Answers, calibration_of, sensor_of};

use converting::{Calibration, Converted};
use format::answers::Rule;
use format::records::{AnalogueSensor, Element};
use format::units::{Deciamps, Decivolts};

// What a record says of its conversion: IMIN and IMAX, VMIN and VMAX, five calibration points, or pulses per revolution.
#[derive(Clone, Copy)]
pub enum Sensor {
    Current(Deciamps, Deciamps),
    Voltage(Decivolts, Decivolts),
    Points(Calibration),
    Pulses(u8),
}

fn calibration_of(a: AnalogueSensor) -> Calibration
    ensures { result ≡ calibration_of a }
{
    Calibration {
        at0: a.at0,
        at25: a.at25,
        at50: a.at50,
        at75: a.at75,
        at100: a.at100,
    }
}

// 02h, 03h, 06h, 07h and 08h have a conversion.
pub fn sensor_of(element: Element) -> Option<Sensor>
    ensures { result ≡ sensor_of element }
{
    match element {
        Element::Analogue(a) => Some(Sensor::Points(calibration_of(a))),
        Element::Fan(f) => Some(Sensor::Pulses(f.ppr)),
        Element::Pump(f) => Some(Sensor::Pulses(f.ppr)),
        Element::Voltage(v) => {
            let vmin = v.vmin;
            let vmax = v.vmax;
            Some(Sensor::Voltage(vmin, vmax))
        }
        Element::Current(c) => Some(Sensor::Current(c.imin, c.imax)),
        _ => None,
    }
}

// The answer to a count, or of a fan or a pump to the pulses in one second.
pub fn answer(sensor: Option<Sensor>, count: u32) -> Result<Converted, Rule>
    ensures { Answers sensor count result }
{
    answered(thermistor::temperature, sensor, count)
}

// The same answer, by the ready table of our own thermistor that is lent: for many counts.
pub fn answer_by(table: &[u16; 1024], sensor: Option<Sensor>, count: u32) -> Result<Converted, Rule>
    requires { Ready table.now }
    ensures { Answers sensor count result }
{
    answered(
        |p, c| thermistor::temperature_by(table, p, c),
        sensor,
        count,
    )
}

// The same, with the temperature along a calibration as the caller reads it.
fn answered<F: FnOnce(Calibration, u32) -> Result<Converted, Rule>>(
    temperature: F,
    sensor: Option<Sensor>,
    count: u32,
) -> Result<Converted, Rule>
    requires called { (p : Calibration) → sensor ≡ Some (Points p) → F.pre temperature p count }
    requires reads { (p : Calibration) (r : _) → sensor ≡ Some (Points p) → F.post temperature p count r → Temperature p count r }
    ensures { Answers sensor count result }
{
    match sensor.ok_or(Rule::NoReading)? {
        Sensor::Current(imin, imax) => converting::current(imin, imax, count),
        Sensor::Voltage(vmin, vmax) => converting::voltage(vmin, vmax, count),
        Sensor::Points(p) => temperature(p, count),
        Sensor::Pulses(ppr) => converting::speed(ppr, count),
    }
}
