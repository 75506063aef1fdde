// Reads a table on standard input and prints the label of an element, whose number, from 0, stands behind the options; behind it a
// name may stand that is lent for an element without a string. The first line is 'text' where the label stands in the table, in UTF-16
// with the low byte first, and 'name' where it is the lent one; then come its bytes, as they are. With a refusal there is one line: R,
// number, place, with tabs. The option --chip names the chip.
#![tactic(auto)]

use format::answers::Refusal;
use format::settings::Settings;
use labels::Source;
use options::Chosen;
use sending::{put, read_input, refuse};
use std::env::FillError;
use std::io;
use std::rt::Env;

fn misuse(rt: &impl Eprint) -> io::Result<()> {
    eprintln!(rt;
        "Behind the options stand the number of an element, of 1 to 9 digits, and a name of at most 65,536 bytes or none."
    )
}

// From where the label comes, or the refusal.
fn put_source(rt: &impl Print, source: Result<Source, Refusal>) -> io::Result<()> {
    match source {
        Ok(Source::Text(_, _)) => put(rt, b"text\n"),
        Ok(Source::Lent) => put(rt, b"name\n"),
        Err(refusal) => refuse(rt, refusal.rule.number(), refusal.place),
    }
}

// 4,097 bytes of input are enough: a longer table is refused by the first of them (2) or by its length (3). With a refusal the label
// is empty.
fn show(rt: &(impl Input + Print), k: usize, name: &[u8], settings: Settings) -> io::Result<()> {
    let mut input = [0u8; 4097];
    let n = read_input(rt, &mut input)?;
    put_source(rt, labels::find(&input[..n], k, settings))?;
    put(rt, labels::label(&input[..n], k, name, settings))
}

// The word that is no more than the buffer holds, or an empty one where there is none.
fn name(
    rt: &(impl Env + Input + Print + Eprint),
    k: usize,
    word: usize,
    settings: Settings,
) -> io::Result<()> {
    let mut name = [0u8; 65536];
    match rt.arg(word, &mut name) {
        Ok(length) => show(rt, k, &name[..length], settings),
        Err(FillError::NotPresent) => show(rt, k, b"", settings),
        Err(FillError::TooLong) => misuse(rt),
    }
}

// The words behind the options.
fn ask(rt: &(impl Env + Input + Print + Eprint), chosen: Chosen) -> io::Result<()> {
    let first = chosen.next;
    match options::number_behind(rt, first, 2, 1000000000) {
        Some(k) => name(rt, k, first + 1, chosen.settings),
        None => misuse(rt),
    }
}

fn main(rt: HostRuntime) -> io::Result<()> {
    let chosen = options::ordinary(options::read(&rt));
    options::run(&rt, chosen, |chosen| ask(&rt, chosen))
}
