// Reads a table on standard input and takes the element out whose number, from 0, stands behind the options: the table without it goes to
// standard output as raw bytes. Refused: the line R, number, place, with tabs. The option --chip names the chip.
#![tactic(auto)]

use format::pins::Chip;
use format::settings::Settings;
use options::Chosen;
use sending::read_input;
use std::io;
use std::rt::Env;

fn misuse(rt: &impl Eprint) -> io::Result<()> {
    eprintln!(rt;
        "Behind the options stands the number of an element, counted from 0, and nothing else."
    )
}

// The table without element k, or the refusal.
fn take_out(rt: &impl Print, table: &mut [u8], k: usize, chip: Chip) -> io::Result<()> {
    let removed = removing::remove(table, k, chip);
    sending::answer(rt, removed, table)
}

// 4,097 bytes of input are enough: a longer table is refused by the first of them (2) or by its length (3).
fn answer(rt: &(impl Input + Print), k: usize, settings: Settings) -> io::Result<()> {
    let chip = settings.chip;
    let mut input = [0u8; 4097];
    let n = read_input(rt, &mut input)?;
    take_out(rt, &mut input[..n], k, chip)
}

// The one word behind the options.
fn ask(rt: &(impl Env + Input + Print + Eprint), chosen: Chosen) -> io::Result<()> {
    match options::number_behind(rt, chosen.next, 1, 1000000000) {
        Some(k) => answer(rt, k, chosen.settings),
        None => misuse(rt),
    }
}

fn main(rt: HostRuntime) -> io::Result<()> {
    let chosen = options::ordinary(options::read(&rt));
    options::run(&rt, chosen, |chosen| ask(&rt, chosen))
}
