// The rows of 'Known tables' that are not starred, one a line: the table in capital hex, number, place or number of elements,
// with tabs; below the first, of whose listing document 01 has a line, that listing. The other two have the answer of request 2/14,
// 10 at 32. Table A and fan F are written out as the document has them, A with its length mended. tools/known holds what is
// printed to the second program.
#![tactic(auto)]

use format::pins::Chip;
use format::settings::{Rules, Settings};
use sending::{Hex, send};
use std::io;

fn print_answer(rt: &impl Print, number: u8, beside: usize) -> io::Result<()> {
    println!(rt; "\t{number}\t{beside}")
}

// The known tables are those of the 320.
fn larger() -> Settings {
    Settings {
        chip: Chip::C8051F320,
        rules: Rules::Ordinary,
    }
}

fn row(rt: &impl Print, table: &[u8]) -> io::Result<()> {
    print!(rt; "{}", Hex(table))?;
    match reader::check(table, larger()) {
        Ok(n) => print_answer(rt, 0, n),
        Err(refusal) => print_answer(rt, refusal.rule.number(), refusal.place),
    }
}

fn row_and_listing(rt: &impl Print, table: &[u8]) -> io::Result<()> {
    row(rt, table)?;
    let mut out = [0u8; 4096];
    let length = listing::list(table, &mut out, larger());
    send(rt, length, &out)
}

fn main(rt: HostRuntime) -> io::Result<()> {
    // A, F, zone 1
    row_and_listing(
        &rt,
        b"\x01\x3E\x00\x02\x00\x07\x00\x00\x80\xFF\xFF\xFF\x00\x00\x00\x00\
        \x03\x10\x00\x00\xFF\xFF\xFF\x01\x05\x06\x02\x2C\x01\xDC\x05\x40\
        \x0B\x1E\x00\x01\x00\x00\0\0\0\0\0\0\0\0\0\0\0\0\0\0\0\0\0\0\0\0\0\0\0\0",
    )?;
    // A, F, F, zone 1
    row(
        &rt,
        b"\x01\x4E\x00\x02\x00\x07\x00\x00\x80\xFF\xFF\xFF\x00\x00\x00\x00\
        \x03\x10\x00\x00\xFF\xFF\xFF\x01\x05\x06\x02\x2C\x01\xDC\x05\x40\
        \x03\x10\x00\x00\xFF\xFF\xFF\x01\x05\x06\x02\x2C\x01\xDC\x05\x40\
        \x0B\x1E\x00\x01\x00\x00\0\0\0\0\0\0\0\0\0\0\0\0\0\0\0\0\0\0\0\0\0\0\0\0",
    )?;
    // A, F, F
    row(
        &rt,
        b"\x01\x30\x00\x02\x00\x07\x00\x00\x80\xFF\xFF\xFF\x00\x00\x00\x00\
        \x03\x10\x00\x00\xFF\xFF\xFF\x01\x05\x06\x02\x2C\x01\xDC\x05\x40\
        \x03\x10\x00\x00\xFF\xFF\xFF\x01\x05\x06\x02\x2C\x01\xDC\x05\x40",
    )
}
