// Reads a text in Intel HEX on standard input. Where the table that it sends is accepted by the archive's rules, that table goes to
// standard output. Refused: the line R, number, place (of 21 the line's number), with tabs. The option --chip names the chip.
#![tactic(auto)]

use format::settings::Settings;
use sending::{answer, read_input};
use std::io;

// No table is longer than 4,096 bytes.
fn unhex(rt: &(impl Input + Print), input: &mut [u8], settings: Settings) -> io::Result<()> {
    let chip = settings.chip;
    let n = read_input(rt, input)?;
    let mut out = [0u8; 4096];
    let written = fromhex::from_hex(&input[..n], &mut out, chip);
    answer(rt, written, &out)
}

// 918,025 characters of input are enough: what a text means by so many it means with any more behind them (`first_decide`, in
// fromhex proofs/Enough). They are lent as an array, whose length is its type: nothing has to count them.
fn within(
    rt: &(impl Input + Print),
    input: &mut [u8; 918025],
    settings: Settings,
) -> io::Result<()> {
    unhex(rt, input, settings)
}

fn main(rt: HostRuntime) -> io::Result<()> {
    let mut input = [0u8; 918025];
    let chosen = options::ordinary(options::read_alone(&rt));
    options::run(
        &rt,
        chosen,
        |chosen| within(&rt, &mut input, chosen.settings),
    )
}
