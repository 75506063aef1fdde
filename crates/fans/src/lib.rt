// Is there a fan in this zone? A walk over the elements of a table that stops at the first fan or pump of the zone, and how many
// elements it visited.
#![tactic(auto)]

ghost use Rattle.std.specs.Prelude.{◌≡◌, List, ◌+◌, ◌<◌};
ghost use Rattle.format.specs.Answers.{told};
ghost use Rattle.format.specs.Slots.{Fits};
ghost use Rattle.format.specs.Records.{Record};
ghost use Rattle.format.specs.Layout.{layout};
ghost use Rattle.format.specs.Verdict.{Accepts};
ghost use Rattle.format.specs.declared.settings.Settings.{Settings};
ghost use Rattle.format.specs.declared.records.Description.{Description};
ghost use Rattle.fans.specs.InZone.{motor_in, visit, in_zone, Shown, Zones};

use format::answers::Refusal;
use format::settings::Settings;
use walking::{Places, length_at};

// Whether the element that was visited last is a fan or a pump of the zone, and how many were visited.
#[derive(Clone, Copy)]
pub struct Visit {
    pub hit: bool,
    pub count: usize,
}

// Is there a fan or a pump in this zone? The table is checked first.
pub fn in_zone(table: &[u8], zone: u8, settings: Settings) -> Result<Visit, Refusal>
    ensures { Zones settings table.now zone (told result) }
{
    let answer = reader::check(table, settings);
    let Ok(_) = answer else {
        return Err(answer.unwrap_err());
    };
    Ok(seek(table, zone))
}

// The same of a table whose acceptance is shown: nothing is checked again, and no element behind the first fan or pump of the zone is
// looked at.
pub fn seek(t: &[u8], zone: u8) -> Visit
    requires { Shown t.now }
    ensures { (σ : Settings) (d : Description) (rs : List Record) → Accepts σ t.now d rs → result ≡ in_zone zone rs }
{
    let mut count = 0;
    for at in Places::of(t) {
        let v = step(&t[at..at + length_at(t, at)], zone, count);
        if v.hit {
            return v;
        }
        count = v.count;
    }
    Visit { hit: false, count }
}

// One visit: the bytes of one element, header and all, and the count so far.
fn step(e: &[u8], zone: u8, count: usize) -> Visit
    requires { ((x : Record) × Fits e.now (layout x)) × (count < 96) }
    ensures { (x : Record) → Fits e.now (layout x) → result ≡ visit (motor_in zone x) (count + 1) }
{
    Visit {
        hit: motor_in(e, zone),
        count: count + 1,
    }
}

// Whether an element is a fan or a pump of the zone. The kind is looked at first: byte 7 of a zone descriptor or a string is no zone
// identifier.
fn motor_in(e: &[u8], zone: u8) -> bool
    requires { (x : Record) × Fits e.now (layout x) }
    ensures { (x : Record) → Fits e.now (layout x) → result ≡ motor_in zone x }
{
    let id = e[0];
    if (id == 3) | (id == 6) {
        return e[7] == zone;
    }
    false
}
