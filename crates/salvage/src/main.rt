// Reads a file on standard input, of which the first 4,096 bytes count. What can be saved of the table in it goes to standard output as
// raw bytes, and to standard error a line for each change: old offset, number of the rule, `left out` or `cleared`, with tabs.
// Refused: the line R, number, place on standard output alone. The option --chip names the chip.
#![tactic(auto)]

use format::answers::Refusal;
use format::settings::Settings;
use saving::Lengths;
use sending::{read_input, refuse, send};
use std::io;

// The new table and its lines, or the refusal.
fn answer(
    rt: &impl Print,
    errors: &impl Print,
    salvaged: Result<Lengths, Refusal>,
    out: &[u8],
    lines: &[u8; 32768],
) -> io::Result<()> {
    match salvaged {
        Ok(lengths) => {
            send(rt, lengths.table, out)?;
            send(errors, lengths.lines, lines)
        }
        Err(refusal) => refuse(rt, refusal.rule.number(), refusal.place),
    }
}

fn salvage(rt: &(impl Input + Print), errors: &impl Print, settings: Settings) -> io::Result<()> {
    let chip = settings.chip;
    let mut input = [0u8; 4096];
    let n = read_input(rt, &mut input)?;
    let mut out = [0u8; 4096];
    let mut lines = [0u8; 32768];
    let salvaged = salvaging::salvage(&input[..n], &mut out, &mut lines, chip);
    answer(rt, errors, salvaged, &out, &lines)
}

fn main(rt: HostRuntime) -> io::Result<()> {
    let chosen = options::ordinary(options::read_alone(&rt));
    options::run(
        &rt,
        chosen,
        |chosen| salvage(&rt, &rt.stderr(), chosen.settings),
    )
}
