// What a table that came in pieces is answered at its end: 1, 2 and 3, which are known last and stand first; then where the pass
// stopped; then the rules over the whole table, 13, 14 and 15, whose places are the first ones by number.
#![tactic(auto)]

ghost use Rattle.format.specs.Answers.{rule_number};
ghost use Rattle.ending.specs.Stopped.{ended};
ghost use Rattle.std.specs.Prelude.{◌≡◌, ◌%◌};
ghost use Rattle.ending.specs.Left.{flags_in};
ghost use Rattle.ending.specs.Ending.{LackingIs, AloneIs, OverIs, PassedIs, VerdictIs};

use claims::Held;
use closing::Way;
use flags::lacks;
use format::answers::Rule;
use pass::State;

// What the pass has left by number, as it is lent: which zone and string numbers are declared, which are named, and where first.
#[derive(Clone, Copy)]
pub struct Numbers<'a> {
    pub zones: &'a [bool; 256],
    pub strings: &'a [bool; 256],
    pub zone_uses: &'a [bool; 256],
    pub string_uses: &'a [bool; 256],
    pub zone_places: &'a [u16; 256],
    pub string_places: &'a [u16; 256],
}

// Where a rule stopped the pass. Its number comes from the lent state, which holds any number.
#[derive(Clone, Copy)]
pub struct Stop {
    pub number: u8,
    pub place: usize,
}

// By a rule, at a place.
fn by(rule: Rule, place: usize) -> Result<usize, Stop>
    ensures { result ≡ Err (record { number = rule_number rule; place = place }) }
{
    let number = rule.number();
    Err(Stop { number, place })
}

// The first place of a number that is named and not declared; 0 where there is none.
fn lacking(used: &[bool; 256], seen: &[bool; 256], places: &[u16; 256]) -> usize
    ensures { LackingIs used.now seen.now places.now result }
{
    if lacks(used, seen) {
        return firsts::least(places, seen);
    }
    0
}

// A description without elements: 14 and 15.
fn alone(string: u8, held: Held) -> Result<usize, Stop>
    ensures { AloneIs string held (ended result) }
{
    if string != 0 {
        return by(Rule::NoString, 0);
    }
    if held.clash != 65536 {
        return by(Rule::Clash, held.clash);
    }
    Ok(0)
}

// The rules over the whole table: 13, 14, 15.
fn concluded(string: u8, s: State, numbers: &Numbers) -> Result<usize, Stop>
    ensures { OverIs string s
        (flags_in numbers.now) numbers.now.zone_places.now numbers.now.string_places.now (ended result) }
{
    let z = lacking(numbers.zone_uses, numbers.zones, numbers.zone_places);
    if z != 0 {
        return by(Rule::NoZone, z);
    }
    let mut seen = *numbers.strings;
    seen[0] = true;
    let i = usize::from(string);
    if !seen[i] {
        return by(Rule::NoString, 0);
    }
    let t = lacking(numbers.string_uses, &seen, numbers.string_places);
    if t != 0 {
        return by(Rule::NoString, t);
    }
    let held = s.held;
    if held.clash != 65536 {
        return by(Rule::Clash, held.clash);
    }
    Ok(s.count)
}

// The number of a rule is a byte.
fn byte_of(stop: usize) -> u8
    ensures { result ≡ stop % 256 }
{
    (stop % 256) as u8
}

// Where the pass stopped, 6 where an element is cut short, or the rules over the whole table; `bare` where there was no element.
fn passed(w: Way, bare: bool, string: u8, numbers: &Numbers) -> Result<usize, Stop>
    ensures { PassedIs w bare string
        (flags_in numbers.now) numbers.now.zone_places.now numbers.now.string_places.now (ended result) }
{
    if w.stop != 0 {
        return Err(Stop {
            number: byte_of(w.stop),
            place: w.at,
        });
    }
    let s = w.state;
    if bare {
        let held = s.held;
        return alone(string, held);
    }
    let u = w.under;
    if u.len != 0 {
        return by(Rule::ElementLength, w.at);
    }
    concluded(string, s, numbers)
}

// All rules in their order.
pub fn verdict(n: &[usize; 16], first: &[u8; 30], numbers: &Numbers) -> Result<usize, Stop>
    ensures { VerdictIs n.now first.now
        (flags_in numbers.now) numbers.now.zone_places.now numbers.now.string_places.now (ended result) }
{
    let count = n[2];
    if count < 16 {
        return by(Rule::Under16Bytes, 0);
    }
    if first[0] != 1 {
        return by(Rule::Revision, 0);
    }
    let told = usize::from(first[1]) + 256 * usize::from(first[2]);
    if told != count {
        return by(Rule::TableLength, 0);
    }
    if 4096 < told {
        return by(Rule::TableLength, 0);
    }
    passed(states::way_of(n), count == 16, first[4], numbers)
}
