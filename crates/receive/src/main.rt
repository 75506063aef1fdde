// Reads a table on standard input in reports of so many bytes, a number that may stand behind the options, else 64, and keeps no more of
// it than one report and a state. It prints 'ok', a tab and the number of elements; or R, number, place, with tabs. The option --chip
// names the chip.
#![tactic(auto)]

ghost use Rattle.std.specs.Prelude.{◌≡◌, ◌≤◌, length, IfOk, IfSome};

use format::settings::Settings;
use options::Chosen;
use sending::{read_full, refuse};
use std::io;
use std::io::Read;
use std::rt::Env;

fn misuse(rt: &impl Eprint) -> io::Result<()> {
    eprintln!(rt;
        "Behind the options stands the number of bytes in a report, from 1 to 4,096, or nothing, which means 64."
    )
}

fn accept(rt: &impl Print, count: usize) -> io::Result<()> {
    println!(rt; "ok\t{count}")
}

// The next bytes, as many as a report has, or those that are left.
fn report<R: Read>(from: &mut R, buffer: &mut [u8], size: usize) -> io::Result<usize>
    requires { size ≤ length buffer.old }
    ensures count { IfOk result (λ k. k ≤ size) }
    ensures length { length buffer.new ≡ length buffer.old }
{
    read_full(from, &mut buffer[0..size])
}

// 4,097 bytes of input are enough: a longer table is refused by the first of them (2) or by its length (3).
fn answer(rt: &(impl Input + Print), size: usize, settings: Settings) -> io::Result<()>
    requires { size ≤ 4096 }
{
    let mut n = [0usize; 16];
    let mut first = [0u8; 30];
    let mut head = [0u8; 30];
    let mut zs = [false; 256];
    let mut ss = [false; 256];
    let mut zu = [false; 256];
    let mut su = [false; 256];
    let mut zp = [0u16; 256];
    let mut sp = [0u16; 256];
    let mut buffer = [0u8; 4096];
    let mut input = rt.reader();
    receiving::start(&mut n, &mut first, &mut head, settings);
    let mut total: usize = 0;
    while total < 4097 {
        let k = report(&mut input, &mut buffer, size)?;
        if k == 0 {
            break;
        }
        // Before the end no piece is refused.
        let _ = receiving::piece(
            &mut n,
            &mut first,
            &mut head,
            &mut zs,
            &mut ss,
            &mut zu,
            &mut su,
            &mut zp,
            &mut sp,
            &buffer[0..k],
        );
        total += k;
    }
    match receiving::end(&mut n, &first, &zs, &ss, &zu, &su, &zp, &sp) {
        Ok(k) => accept(rt, k),
        Err(stop) => refuse(rt, stop.number, stop.place),
    }
}

// The number of bytes in a report, which is the one word behind the options, or 64 where there is none.
fn report_size(rt: &impl Env, first: usize) -> Option<usize>
    ensures { IfSome result (λ n. n ≤ 4096) }
{
    if options::count_from(rt, first) == 0 {
        return Some(64);
    }
    options::number_behind(rt, first, 1, 4097).filter(|n| *n > 0)
}

fn ask(rt: &(impl Env + Input + Print + Eprint), chosen: Chosen) -> io::Result<()> {
    match report_size(rt, chosen.next) {
        Some(size) => answer(rt, size, chosen.settings),
        None => misuse(rt),
    }
}

fn main(rt: HostRuntime) -> io::Result<()> {
    let chosen = options::ordinary(options::read(&rt));
    options::run(&rt, chosen, |chosen| ask(&rt, chosen))
}
