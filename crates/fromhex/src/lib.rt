// A table moved back out of Intel HEX. A line is judged by spelling what it may send, and comparing.
#![tactic(auto)]

ghost use Rattle.std.specs.Prelude.{◌≡◌, List, ◌++◌, ℕ, ◌+◌, ◌*◌, ◌<◌, ◌≤◌, IfSome, length};
ghost use Rattle.format.specs.Answers.{told};
ghost use Rattle.format.specs.Slots.{byte};
ghost use Rattle.hextext.specs.Text.{data_line};
ghost use Rattle.hextext.specs.Digits.{digit_value, pair_at};
ghost use Rattle.hextext.specs.Meaning.{Ends};
ghost use Rattle.hextext.specs.Moved.{Moved};
ghost use Rattle.fromhex.specs.FromHex.{FromHex};
ghost use Rattle.fromhex.specs.Reading.{Begins, NoData, Opens, Said, Kept, Through};

use format::answers::{Refusal, Rule};
use format::pins::Chip;
use format::settings::{Rules, Settings};
use hextext::{END, put_data};
use laying::copy_into;
use spelling::put;

// The first line of a text that is bad, counted from 1.
#[derive(Clone, Copy)]
pub struct BadLine {
    pub line: usize,
}

// Writes the table that a text sends into a buffer that is long enough: 0 with the table's length. 21 with the number of the first
// bad line, the table's refusal by the archive's rules, or 16 at 0 where the buffer is too short; then no byte of it alters. The table
// is judged before a byte is written, and before the buffer's length is looked at: so its bytes are gathered here first.
pub fn from_hex(text: &[u8], out: &mut [u8], chip: Chip) -> Result<usize, Refusal>
    ensures { FromHex chip text.now out.old (told result) out.new }
{
    let mut table = [0u8; 4352];
    let walked = walk(text, &mut table);
    match walked {
        Ok(n) => moved_kept(&table, n, out, chip),
        Err(bad) => Err(Rule::Hex.at(bad.line)),
    }
}

// The table of n bytes that the walk kept. One of more than 4,096 is not all there, and is refused by its first.
fn moved_kept(table: &[u8], n: usize, out: &mut [u8], chip: Chip) -> Result<usize, Refusal>
    requires { 4096 ≤ length table.now }
    ensures { (b : List ℕ) → length b ≡ n → Kept b table.now → Moved chip b b out.old (told result) out.new }
{
    if n <= 4096 {
        return moved(&table[..n], out, chip);
    }
    if table[0] != 1 {
        return Err(Rule::Revision.at(0));
    }
    Err(Rule::TableLength.at(0))
}

// A table moved as it stands.
fn moved(table: &[u8], out: &mut [u8], chip: Chip) -> Result<usize, Refusal>
    ensures { Moved chip table.now table.now out.old (told result) out.new }
{
    let settings = Settings {
        chip,
        rules: Rules::Archive,
    };
    reader::check(table, settings)?;
    if out.len() < table.len() {
        return Err(Rule::NoRoom.at(0));
    }
    Ok(put(out, 0, table))
}

// The walk over a text, line by line: how many bytes it sends, and the bytes at the front of a buffer, as far as a table may go.
fn walk(text: &[u8], table: &mut [u8]) -> Result<usize, BadLine>
    requires { 4352 ≤ length table.old }
    ensures { Through text.now table.new result }
{
    let mut into = [0u8; 255];
    let mut at = 0;
    let mut lines = 0;
    let mut total = 0;
    while let Some(n) = data_line(&text[at..], total, &mut into) {
        keep(table, total, &into[..n]);
        at += 12 + 2 * n;
        lines += 1;
        total += n;
    }
    ended(&text[at..], lines, total)
}

// More bytes behind so many; none where there are over 4,096 already.
fn keep(table: &mut [u8], total: usize, bytes: &[u8])
    requires { (4352 ≤ length table.old) × (length bytes.now ≤ 255) }
    ensures { (b : List ℕ) → length b ≡ total → Kept b table.old → Kept (b ++ bytes.now) table.new }
{
    if 4096 < total {
        return;
    }
    copy_into(table, total, bytes);
}

// What a text means by what stands behind so many good data records that sent n bytes, where no further one does.
fn ended(rest: &[u8], lines: usize, n: usize) -> Result<usize, BadLine>
    requires { lines < 9223372036854775808 }
    ensures { (b : List ℕ) → length b ≡ n → NoData n rest.now → Said (Ends lines b rest.now) b result }
{
    if rest.starts_with(&END) {
        if rest.len() == 12 {
            return Ok(n);
        }
        return Err(BadLine { line: lines + 2 });
    }
    Err(BadLine { line: lines + 1 })
}

// The data record at an address that begins a text, if one does: how many bytes it sends, and the bytes.
fn data_line(text: &[u8], address: usize, into: &mut [u8]) -> Option<usize>
    requires { 255 ≤ length into.old }
    ensures { Opens address text.now into.new result × IfSome result (λ n. n ≤ 255) }
{
    if 65535 < address {
        return None;
    }
    let n = usize::from(pair_at(text, 1));
    if n == 0 {
        return None;
    }
    read_bytes(text, n, into);
    if sends(text, address, &into[..n]) {
        Some(n)
    } else {
        None
    }
}

// Whether a text begins with the data record of these bytes.
fn sends(text: &[u8], address: usize, bytes: &[u8]) -> bool
    requires { (address < 65536) × (length bytes.now ≤ 255) }
    ensures { Begins text.now (data_line address bytes.now) result }
{
    let mut line = [0u8; 522];
    let end = put_data(&mut line, 0, address, bytes);
    text.starts_with(&line[..end])
}

// The n bytes that the digits of a data record stand for.
fn read_bytes(text: &[u8], n: usize, into: &mut [u8])
    requires { (n ≤ 255) × (n ≤ length into.old) }
    ensures { (k : ℕ) → k < n → byte into.new k ≡ pair_at text.now (9 + 2 * k) }
{
    for k in 0..n {
        into[k] = pair_at(text, 9 + 2 * k);
    }
}

// The byte that two hex digits at a place stand for.
fn pair_at(text: &[u8], i: usize) -> u8
    requires { i ≤ 1000 }
    ensures { result ≡ pair_at text.now i }
{
    let high = digit_value(char_at(text, i));
    let low = digit_value(char_at(text, i + 1));
    ((16 * high + low) % 256) as u8
}

// The character at a place, 0 past the end.
fn char_at(text: &[u8], i: usize) -> u8
    ensures { result ≡ byte text.now i }
{
    text.get(i).copied().unwrap_or(0)
}

// The value of a hex digit; of other characters some number.
fn digit_value(c: u8) -> usize
    ensures { (result ≡ digit_value c) × (result ≤ 42) }
{
    usize::from(c % 16) + 9 * usize::from(c / 64)
}
