// Any number of 64 bits in plain decimals.
#![tactic(auto)]

ghost use Rattle.std.specs.Prelude.{◌≡◌, ◌+◌, ◌≤◌, length};
ghost use Rattle.spelling.specs.Spelling.{Put, digit};
ghost use Rattle.decimals.specs.Decimals.{decimals, Spelt};

use spelling::{put, put_decimal};

// The digits of a number stand at the end of these bytes, from here on.
#[derive(Clone, Copy)]
struct Digits {
    bytes: [u8; 20],
    from: usize,
}

fn digit(n: u64) -> u8
    ensures { result ≡ digit n }
{
    48 + (n % 10) as u8
}

// From the last digit to the first, until none is left.
fn spell(n: u64) -> Digits
    ensures { Spelt n result.bytes result.from }
{
    let mut bytes = [0u8; 20];
    let mut from = 19;
    bytes[19] = digit(n);
    let mut m = n / 10;
    while m != 0 {
        from -= 1;
        bytes[from] = digit(m);
        m /= 10;
    }
    Digits { bytes, from }
}

// A number, and where its text ends. Under 100,000,000, as all readings are, its digits go straight into the buffer.
pub fn put_number(out: &mut [u8], at: usize, n: u64) -> usize
    requires { at + 20 ≤ length out.old }
    ensures { Put out.old at (decimals n) result out.new × (result ≤ at + 20) }
{
    if n < 100000000 {
        return put_decimal(out, at, n as usize);
    }
    let d = spell(n);
    let from = d.from;
    let bytes = d.bytes;
    put(out, at, &bytes[from..])
}
