// Reads a table on standard input and prints its pin sheet: a line for each pin of the chip, its name, a tab and its first claimant: `L`
// for the fault LED, 0 for the description, the offset of an element, or `-`. Of a refused table only R, number, place. The option
// --chip names the chip.
#![tactic(auto)]

use format::settings::Settings;
use sending::{read_input, refuse, send};
use std::io;

// The lines are put into a buffer of their own, which `send` then hands on.
fn show(rt: &impl Print, sheet: &[u16; 25], settings: Settings) -> io::Result<()> {
    let mut out = [0u8; 275];
    let chip = settings.chip;
    let length = pinlines::text(sheet, &mut out, chip);
    send(rt, length, &out)
}

// 4,097 bytes of input are enough: a longer table is refused by the first of them (2) or by its length (3).
fn pins(rt: &(impl Input + Print), settings: Settings) -> io::Result<()> {
    let mut input = [0u8; 4097];
    let n = read_input(rt, &mut input)?;
    let mut sheet = [65535u16; 25];
    match sheets::make(&input[..n], &mut sheet, settings) {
        Ok(_) => show(rt, &sheet, settings),
        Err(refusal) => refuse(rt, refusal.rule.number(), refusal.place),
    }
}

fn main(rt: HostRuntime) -> io::Result<()> {
    let chosen = options::ordinary(options::read_alone(&rt));
    options::run(&rt, chosen, |chosen| pins(&rt, chosen.settings))
}
