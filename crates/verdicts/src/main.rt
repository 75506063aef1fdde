// Reads each file that is named behind the options and prints a line for it, with tabs: the file's index from 1, then 'ok' and the
// number of elements; or R, number, place, the number of bytes and the bytes in hex; or X where the file cannot be read. The option
// --chip names the chip, and --archive has the archive's rules.
#![tactic(auto)]

use format::settings::Settings;
use options::Chosen;
use sending::Hex;
use std::io;
use std::rt::{Env, Files};

fn accepted(rt: &impl Print, n: usize) -> io::Result<()> {
    println!(rt; "ok\t{n}")
}

fn refused(rt: &impl Print, k: u8, place: usize, table: &[u8]) -> io::Result<()> {
    println!(rt; "R\t{k}\t{place}\t{}\t{}", table.len(), Hex(table))
}

fn verdict(rt: &impl Print, table: &[u8], settings: Settings) -> io::Result<()> {
    match reader::check(table, settings) {
        Ok(n) => accepted(rt, n),
        Err(refusal) => refused(rt, refusal.rule.number(), refusal.place, table),
    }
}

fn file(rt: &(impl Env + Files + Print), i: usize, settings: Settings) -> io::Result<()> {
    match options::named_table(rt, i, &mut [0u8; 4097]) {
        Some(table) => verdict(rt, table, settings),
        None => println!(rt; "X"),
    }
}

// The files from the first word behind the options on.
fn files(rt: &(impl Env + Files + Print), chosen: Chosen) -> io::Result<()> {
    let count = options::count_from(rt, chosen.next);
    for i in 0..count {
        print!(rt; "{}\t", i + 1)?;
        file(rt, chosen.next + i, chosen.settings)?;
    }
    Ok(())
}

fn main(rt: HostRuntime) -> io::Result<()> {
    options::run(&rt, options::read(&rt), |chosen| files(&rt, chosen))
}
