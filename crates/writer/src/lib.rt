// Writing a table into a lent buffer: start it, append an element. A refusal leaves every byte as it was: everything is decided
// before a byte is written. The caller names the chip; a pin of the other one is 10. The rules are the ordinary ones: what
// is retired is written into no table.
#![tactic(auto)]

ghost use Rattle.std.specs.Prelude.{◌≡◌, ◌<◌, ◌≤◌, length};
ghost use Rattle.format.specs.Answers.{told};
ghost use Rattle.format.specs.Verdict.{stated};
ghost use Rattle.format.specs.Writing.{start_answer, append_answer};
ghost use Rattle.writer.specs.Calls.{Started, Appended, room_answer};

use format::answers::{Refusal, Rule};
use format::pins::Chip;
use format::records::{Description, Element};
use format::settings::{Rules, Settings};

// What starting a table answers.
fn start_verdict(buffer: &[u8], d: Description, chip: Chip) -> Result<usize, Refusal>
    ensures { told result ≡ start_answer chip buffer.now d }
{
    if buffer.len() < 16 {
        return Err(Rule::Under16Bytes.at(0));
    }
    if !widths::description_roomy(d) {
        return Err(Rule::TooLarge.at(0));
    }
    if let Err(rule) = rules::description_breaks(d, chip) {
        return Err(rule.at(0));
    }
    Ok(16)
}

// Starts a table: its description, with length 16. Answers 0 with the length, or 1, 25, 4, 5, 10 at 0.
pub fn start(buffer: &mut [u8], d: Description, chip: Chip) -> Result<usize, Refusal>
    ensures { Started chip buffer.old d (told result) buffer.new }
{
    let n = start_verdict(buffer, d, chip)?;
    laying::put_description(buffer, d);
    Ok(n)
}

// The length so far, in bytes 1-2.
fn length_so_far(buffer: &[u8]) -> usize
    requires { 3 ≤ length buffer.now }
    ensures { (result ≡ stated buffer.now) × (result < 65536) }
{
    usize::from(buffer[1]) + 256 * usize::from(buffer[2])
}

// 16, or the new length.
fn room(buffer: &[u8], n: usize, e: Element, part: &[u8]) -> Result<usize, Refusal>
    requires { n ≤ 4096 }
    ensures { told result ≡ room_answer buffer.now n e part.now }
{
    if 4096 < part.len() {
        return Err(Rule::NoRoom.at(0));
    }
    let m = n + 3 + laying::fixed_length(e) + part.len();
    if buffer.len() < m {
        return Err(Rule::NoRoom.at(0));
    }
    if 4096 < m {
        return Err(Rule::NoRoom.at(0));
    }
    Ok(m)
}

// What appending an element answers.
fn append_verdict(buffer: &[u8], e: Element, part: &[u8], chip: Chip) -> Result<usize, Refusal>
    ensures { told result ≡ append_answer chip buffer.now e part.now }
{
    if buffer.len() < 16 {
        return Err(Rule::Under16Bytes.at(0));
    }
    let n = length_so_far(buffer);
    if !((16 <= n) & ((n <= 4096) & (n <= buffer.len()))) {
        return Err(Rule::TableLength.at(0));
    }
    if !widths::element_roomy(e) {
        return Err(Rule::TooLarge.at(0));
    }
    let settings = Settings {
        chip,
        rules: Rules::Ordinary,
    };
    if let Err(rule) = checks::part_breaks(e, part, settings) {
        return Err(rule.at(n));
    }
    room(buffer, n, e, part)
}

// Appends one element, with its variable part, to a table whose length so far stands in bytes 1-2. Answers 0 with the new
// length, or 1, 3, 25, 8, 9, 23, 10, 16.
pub fn append(buffer: &mut [u8], e: Element, part: &[u8], chip: Chip) -> Result<usize, Refusal>
    ensures { Appended chip buffer.old e part.now (told result) buffer.new }
{
    let m = append_verdict(buffer, e, part, chip)?;
    let n = length_so_far(buffer);
    joining::put_element(buffer, n, e, part);
    joining::put_length(buffer, m);
    Ok(m)
}
