// Reads a table on standard input. Accepted: its records, read one by one and written again, go to standard output as raw bytes,
// with reserved places at zero. Refused: the line R, number, place, with tabs. The option --chip names the chip.
#![tactic(auto)]

use format::settings::Settings;
use sending::{answer, read_input};
use std::io;

// 4,097 bytes of input are enough: a longer table is refused by the first of them (2) or by its length (3).
fn rewrite(rt: &(impl Input + Print), settings: Settings) -> io::Result<()> {
    let chip = settings.chip;
    let mut input = [0u8; 4097];
    let n = read_input(rt, &mut input)?;
    let mut out = [0u8; 4096];
    let written = rewriting::rewrite(&input[..n], &mut out, chip);
    answer(rt, written, &out)
}

fn main(rt: HostRuntime) -> io::Result<()> {
    let chosen = options::ordinary(options::read_alone(&rt));
    options::run(&rt, chosen, |chosen| rewrite(&rt, chosen.settings))
}
