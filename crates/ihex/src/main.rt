// Reads a table on standard input. Accepted by the archive's rules: its text in Intel HEX goes to standard output. Refused: the line R,
// number, place, with tabs. The option --chip names the chip.
#![tactic(auto)]

use format::settings::Settings;
use sending::{answer, read_input};
use std::io;

// 4,097 bytes of input are enough: a longer table is refused by the first of them (2) or by its length (3). The text of 4,096 bytes is 256
// lines of 44 characters and the end record.
fn hex(rt: &(impl Input + Print), settings: Settings) -> io::Result<()> {
    let chip = settings.chip;
    let mut input = [0u8; 4097];
    let n = read_input(rt, &mut input)?;
    let mut out = [0u8; 11276];
    let written = tohex::to_hex(&input[..n], &mut out, chip);
    answer(rt, written, &out)
}

fn main(rt: HostRuntime) -> io::Result<()> {
    let chosen = options::ordinary(options::read_alone(&rt));
    options::run(&rt, chosen, |chosen| hex(&rt, chosen.settings))
}
