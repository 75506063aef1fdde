// Reads a table on standard input and prints its listing: one record a line; of a refused table only R, number, place. The option
// --chip names the chip, and --archive has the archive's rules.
#![tactic(auto)]

use format::settings::Settings;
use sending::{read_input, send};
use std::io;

// 4,097 bytes of input are enough: a longer table is refused by the first of them (2) or by its length (3). Nothing is printed
// before the whole text stands in the buffer.
fn list(rt: &(impl Input + Print), settings: Settings) -> io::Result<()> {
    let mut input = [0u8; 4097];
    let n = read_input(rt, &mut input)?;
    let mut out = [0u8; 4096];
    let length = listing::list(&input[..n], &mut out, settings);
    send(rt, length, &out)
}

fn main(rt: HostRuntime) -> io::Result<()> {
    options::run(&rt, options::read_alone(&rt), |chosen| {
        list(&rt, chosen.settings)
    })
}
