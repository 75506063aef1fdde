// What programs have in common on their standard streams: a buffer that is filled from the input, a file's table, some text, the front
// of a buffer, the line of a refusal.
#![tactic(auto)]

ghost use Rattle.std.specs.Prelude.{◌≡◌, ◌≤◌, length, IfSome};
ghost use Rattle.std.specs.Io.{ReadsAtMost};

use format::answers::Refusal;
use std::io::Read;
use std::{fmt, io};

// Bytes that are printed in hex, two capital digits for each.
#[derive(Clone, Copy)]
pub struct Hex<'a>(pub &'a [u8]);

static DIGITS: [&str; 16] = [
    "0", "1", "2", "3", "4", "5", "6", "7", "8", "9", "A", "B", "C", "D", "E", "F",
];

// By digits that stand ready: the library's `{:02X}` takes four times as long a byte (docs/LOOK-BACK.md).
impl fmt::Display for Hex<'_> {
    fn fmt<W: fmt::Write>(&self, f: &mut fmt::Formatter<W>) -> fmt::Result {
        for b in self.0 {
            f.write_str(DIGITS[usize::from(b / 16)])?;
            f.write_str(DIGITS[usize::from(b % 16)])?;
        }
        Ok(())
    }
}

// Reads until the buffer is full or the input ends, and answers how many bytes stand at the buffer's start. No reader of std does so
// in a lent buffer: `read_exact` fails where the input ends first, and `read_to_end` takes memory of its own.
pub fn read_full<R: Read>(from: &mut R, buffer: &mut [u8]) -> io::Result<usize>
    ensures count { ReadsAtMost result buffer.new }
    ensures length { length buffer.new ≡ length buffer.old }
{
    let mut done = 0;
    while done < buffer.len() {
        let n = from.read(&mut buffer[done..])?;
        if n == 0 {
            break;
        }
        done += n;
    }
    Ok(done)
}

// The same from standard input. It answers a number and no slice of the buffer, since a clause cannot say of a buffer that is lent on
// that it keeps its length.
pub fn read_input(rt: &impl Input, buffer: &mut [u8]) -> io::Result<usize>
    ensures count { ReadsAtMost result buffer.new }
    ensures length { length buffer.new ≡ length buffer.old }
{
    read_full(&mut rt.reader(), buffer)
}

// The table that a file has, or none where it cannot be read. 4,097 bytes are enough: a longer table is refused by the first of them (2)
// or by its length (3). One more read tells an end of the file from a read that failed, as of a folder.
pub fn read_table<'a, R: Read>(file: &mut R, table: &'a mut [u8; 4097]) -> Option<&'a [u8]>
    ensures { IfSome result (λ read. length read.now ≤ 4097) }
{
    let n = read_full(file, table).ok()?;
    let more = file.read(&mut [0u8; 1]).ok()?;
    if more > 0 && n < 4097 {
        return None;
    }
    Some(&table[..n])
}

pub fn put(rt: &impl Print, text: &[u8]) -> io::Result<()> {
    rt.write_all(text)
}

// The first n bytes.
pub fn send(rt: &impl Print, n: usize, out: &[u8]) -> io::Result<()> {
    put(rt, &out[..n.min(out.len())])
}

// R, number, place.
pub fn refuse(rt: &impl Print, number: u8, place: usize) -> io::Result<()> {
    println!(rt; "R\t{number}\t{place}")
}

// What is written, which stands at the front of a buffer, or the refusal.
pub fn answer(rt: &impl Print, written: Result<usize, Refusal>, out: &[u8]) -> io::Result<()> {
    match written {
        Ok(n) => send(rt, n, out),
        Err(refusal) => refuse(rt, refusal.rule.number(), refusal.place),
    }
}
