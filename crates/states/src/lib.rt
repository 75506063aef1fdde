// The numbers of the state that is lent from piece to piece: 0 whether the end was called, 1 the settings, 2 how many bytes there were
// (4,097 of more), 3 to 14 where the pass is, 15 the count up to which no byte decides anything (`single`), or 0.
#![tactic(auto)]

ghost use Rattle.std.specs.Prelude.{◌≡◌, ◌%◌, ◌<◌, ◌≤◌};
ghost use Rattle.states.specs.Numbers.{settings_of, chip_code, rules_code, code_of, way_of, numbers_of};

use claims::Held;
use closing::Way;
use format::pins::Chip;
use format::settings::{Rules, Settings};
use pass::State;
use underway::Under;

fn chip_of(code: usize) -> Chip
    ensures { result ≡ (settings_of code).chip }
{
    if code % 2 == 0 {
        return Chip::C8051F320;
    }
    Chip::C8051F321
}

fn rules_of(code: usize) -> Rules
    ensures { result ≡ (settings_of code).rules }
{
    if code / 2 % 2 == 0 {
        return Rules::Ordinary;
    }
    Rules::Archive
}

pub fn settings_of(code: usize) -> Settings
    ensures { result ≡ settings_of code }
{
    Settings {
        chip: chip_of(code),
        rules: rules_of(code),
    }
}

fn chip_code(chip: Chip) -> usize
    ensures { (result ≡ chip_code chip) × (result ≤ 1) }
{
    match chip {
        Chip::C8051F320 => 0,
        Chip::C8051F321 => 1,
    }
}

fn rules_code(rules: Rules) -> usize
    ensures { (result ≡ rules_code rules) × (result ≤ 2) }
{
    match rules {
        Rules::Ordinary => 0,
        Rules::Archive => 2,
    }
}

pub fn code_of(s: Settings) -> usize
    ensures { result ≡ code_of s }
{
    let chip = s.chip;
    let rules = s.rules;
    chip_code(chip) + rules_code(rules)
}

fn word(x: usize) -> u32
    ensures { result ≡ x % 4294967296 }
{
    (x % 4294967296) as u32
}

fn long(x: u32) -> usize
    ensures { (result ≡ x) × (result < 4294967296) }
{
    x as usize
}

pub fn way_of(n: &[usize; 16]) -> Way
    ensures { result ≡ way_of n.now }
{
    Way {
        stop: n[3],
        at: n[4],
        under: Under {
            len: n[5],
            at: n[6],
            blocks: n[7],
            mark: n[8],
        },
        state: State {
            count: n[9],
            zones: n[10],
            held: Held {
                alone: word(n[11]),
                joint: word(n[12]),
                clash: n[13],
            },
            last: n[14],
        },
    }
}

pub fn put(n: &mut [usize; 16], ended: usize, code: usize, count: usize, w: Way)
    ensures { (n.new ≡ numbers_of ended code count w) × (way_of n.new ≡ w) }
{
    let u = w.under;
    let s = w.state;
    let h = s.held;
    *n = [
        ended,
        code,
        count,
        w.stop,
        w.at,
        u.len,
        u.at,
        u.blocks,
        u.mark,
        s.count,
        s.zones,
        long(h.alone),
        long(h.joint),
        h.clash,
        s.last,
        0,
    ];
}
