// What an element says that a cut went through, once it is whole, by what is held of it: 09h, 0Ah and 0Dh by their fixed bytes and
// the cut of their blocks, 0Ch by its number and how its text ended. The judges are those of a whole table.
#![tactic(auto)]

ghost use Rattle.std.specs.Prelude.{◌≤◌};
ghost use Rattle.format.specs.Answers.{fault_of};
ghost use Rattle.found.specs.Judged.{finding};
ghost use Rattle.judging.specs.Whole.{SpeedIs, PairsIs, DeviceIs, TextIs, NumberIs};

use blocks::Part;
use format::answers::Rule;
use format::settings::Settings;
use found::Found;
use underway::Under;

// 09h: one to six blocks, each with a pair.
fn speed_part(u: Under) -> Part
    requires { u.at ≤ 10000 }
    ensures { SpeedIs u result }
{
    Part {
        whole: (12 < u.len) & ((u.at + 10 == u.len) & (1 < u.at)),
        full: u.mark == 0,
    }
}

// 0Ah and 0Dh: so many blocks.
fn pairs_part(u: Under, blocks: usize) -> Part
    requires { (u.at ≤ 10000) × (1 ≤ blocks) }
    ensures { PairsIs blocks u result }
{
    Part {
        whole: (12 < u.len) & ((u.at + 12 == u.len) & (u.blocks == blocks)),
        full: true,
    }
}

// 09h
pub fn controller(u: Under, head: &[u8; 30], s: Settings) -> Result<Found, Rule>
    requires { u.at ≤ 10000 }
    ensures { DeviceIs s 9 u head.now (finding result) }
{
    let h = &head[..];
    found::device_found(&h[3..30], speed_part(u), s)
}

// 0Ah
pub fn tachometer(u: Under, head: &[u8; 30], s: Settings) -> Result<Found, Rule>
    requires { u.at ≤ 10000 }
    ensures { DeviceIs s 10 u head.now (finding result) }
{
    let h = &head[..];
    found::device_found(&h[3..30], pairs_part(u, 2), s)
}

// 0Dh, whose chip must be identified
pub fn external(u: Under, head: &[u8; 30], s: Settings) -> Result<Found, Rule>
    requires { u.at ≤ 10000 }
    ensures { DeviceIs s 13 u head.now (finding result) }
{
    let h = &head[..];
    let blocks = pairs_part(u, 3);
    let part = Part {
        whole: blocks.whole,
        full: rules::identified(head[11]),
    };
    found::device_found(&h[3..30], part, s)
}

// 0Ch: 8 or 9.
pub fn text(u: Under, head: &[u8; 30]) -> Result<(), Rule>
    ensures { TextIs u head.now (fault_of result) }
{
    if u.len < 6 {
        return Err(Rule::Layout);
    }
    let good = (u.len % 2 == 0) & ((u.mark % 2 == 0) & (u.mark < 2));
    rules::text_rules(head[3], good)
}

// Its number; 0 where there is none.
pub fn number(u: Under, head: &[u8; 30]) -> u8
    ensures { NumberIs u head.now result }
{
    if u.len < 4 {
        return 0;
    }
    head[3]
}
