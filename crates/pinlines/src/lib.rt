// The lines of a pin sheet, as text in a lent buffer: for each pin of the chip its name, a tab and its first claimant.
#![tactic(auto)]

ghost use Rattle.std.specs.Prelude.{◌+◌, ◌≤◌, length};
ghost use Rattle.spelling.specs.Spelling.{Put, pin_or_dash};
ghost use Rattle.sheets.specs.Lines.{claimant_of};
ghost use Rattle.pinlines.specs.Text.{entry_text, line_text, line_on, text as text_of};

use format::pins::{Chip, Pin, Use};
use sheets::pin_at;
use spelling::{put, put_decimal, put_pin_or_dash};

// Puts the lines of a sheet at the front of the buffer, and answers their length; none is longer than 11 bytes. Any 25 numbers have
// lines, a sheet's or not.
pub fn text(sheet: &[u16; 25], out: &mut [u8; 275], chip: Chip) -> usize
    ensures { Put out.old 0 (text_of chip sheet.now) result out.new }
{
    let mut end: usize = 0;
    for (i, n) in sheet.iter().enumerate() {
        end = put_on_chip(out, end, pin_at(i), *n, chip);
    }
    end
}

// The line of a pin, where the chip has it.
fn put_on_chip(out: &mut [u8], at: usize, pin: u8, n: u16, chip: Chip) -> usize
    requires { at + 11 ≤ length out.old }
    ensures { Put out.old at (line_on chip pin n) result out.new × (result ≤ at + 11) }
{
    if !pinsets::allowed(chip, Use::HardwareRevision, Pin(pin, chip)) {
        return at;
    }
    let mut line = [0u8; 16];
    let length = put_line(&mut line, pin, n);
    put(out, at, &line[..length])
}

fn put_line(line: &mut [u8], pin: u8, n: u16) -> usize
    requires { 16 ≤ length line.old }
    ensures { Put line.old 0 (line_text (pin_or_dash pin) (claimant_of n)) result line.new × (result ≤ 11) }
{
    let a = put_pin_or_dash(line, 0, pin);
    let b = put(line, a, &[9]);
    let c = put_entry(line, b, n);
    put(line, c, &[10])
}

// `-`, `L`, or a place, which has at most five digits.
fn put_entry(out: &mut [u8], at: usize, n: u16) -> usize
    requires { at + 8 ≤ length out.old }
    ensures { Put out.old at (entry_text (claimant_of n)) result out.new × (result ≤ at + 5) }
{
    if n == 65535 {
        return put(out, at, &[45]);
    }
    if n == 65534 {
        return put(out, at, &[76]);
    }
    put_decimal(out, at, usize::from(n))
}
