// Reads a table on standard input and prints whether there is a fan or a pump in a zone, whose number stands behind the options: 'yes' or
// 'no', a tab, and the number of elements visited. With a refusal there is one line: R, number, place, with tabs. The option --chip
// names the chip.
#![tactic(auto)]

use fans::Visit;
use format::settings::Settings;
use options::Chosen;
use sending::{read_input, refuse};
use std::io;
use std::rt::Env;

fn misuse(rt: &impl Eprint) -> io::Result<()> {
    eprintln!(rt; "Behind the options stands the number of a zone, 0 to 255, and nothing else.")
}

fn show(rt: &impl Print, v: Visit) -> io::Result<()> {
    let seen = if v.hit { "yes" } else { "no" };
    println!(rt; "{seen}\t{}", v.count)
}

// 4,097 bytes of input are enough: a longer table is refused by the first of them (2) or by its length (3).
fn answer(rt: &(impl Input + Print), zone: u8, settings: Settings) -> io::Result<()> {
    let mut input = [0u8; 4097];
    let n = read_input(rt, &mut input)?;
    match fans::in_zone(&input[..n], zone, settings) {
        Ok(v) => show(rt, v),
        Err(refusal) => refuse(rt, refusal.rule.number(), refusal.place),
    }
}

// The one word behind the options.
fn ask(rt: &(impl Env + Input + Print + Eprint), chosen: Chosen) -> io::Result<()> {
    match options::number_behind(rt, chosen.next, 1, 256) {
        Some(zone) => answer(rt, zone as u8, chosen.settings),
        None => misuse(rt),
    }
}

fn main(rt: HostRuntime) -> io::Result<()> {
    let chosen = options::ordinary(options::read(&rt));
    options::run(&rt, chosen, |chosen| ask(&rt, chosen))
}
