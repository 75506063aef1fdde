// Numbers and pins as text, put into a lent buffer at a place; each function answers where its text ends.
#![tactic(auto)]

ghost use Rattle.std.specs.Prelude.{◌≡◌, ◌++◌, ◌+◌, ◌<◌, ◌≤◌, ◌/◌, length};
ghost use Rattle.spelling.specs.Spelling.{Put, digit, digit_at, upper, decimal, hex_pair, hex_digit, pin_text, pin_or_dash, next, joined};
ghost use Rattle.spelling.specs.Spelling.{used};

use laying::copy_into;

// Any text.
pub fn put(out: &mut [u8], at: usize, text: &[u8]) -> usize
    requires { at + length text.now ≤ length out.old }
    ensures { Put out.old at text.now result out.new }
{
    copy_into(out, at, text);
    at + text.len()
}

// A number in plain decimals.
pub fn put_decimal(out: &mut [u8], at: usize, n: usize) -> usize
    requires { at + 8 ≤ length out.old }
    ensures { Put out.old at (decimal n) result out.new × (result ≤ at + 8) }
{
    let a = put_upper(out, at, n);
    let b = put_digit(out, a, n, 1000);
    let c = put_digit(out, b, n, 100);
    let d = put_digit(out, c, n, 10);
    put(out, d, &[digit(n)])
}

// Two capital hex digits.
pub fn put_hex(out: &mut [u8], at: usize, n: u8) -> usize
    requires { at + 2 ≤ length out.old }
    ensures { Put out.old at (hex_pair n) result out.new × (result ≡ at + 2) }
{
    put(out, at, &[hex_digit(n / 16), hex_digit(n % 16)])
}

// A pin, or `-` of an unused place.
pub fn put_pin_or_dash(out: &mut [u8], at: usize, p: u8) -> usize
    requires { at + 4 ≤ length out.old }
    ensures { Put out.old at (pin_or_dash p) result out.new × (result ≤ at + 4) }
{
    if p == 255 {
        return put(out, at, &[45]);
    }
    let text = pin_text(p);
    put(out, at, &text)
}

// Three pins, any of which may be unused, parted by commas; `-` where none is used.
pub fn put_pins(out: &mut [u8], at: usize, one: u8, two: u8, three: u8) -> usize
    requires { at + 14 ≤ length out.old }
    ensures { Put out.old at (joined (used one ++ used two ++ used three)) result out.new × (result ≤ at + 14) }
{
    if one != 255 {
        let a = put_pin_or_dash(out, at, one);
        let b = put_next(out, a, two);
        return put_next(out, b, three);
    }
    if two != 255 {
        let a = put_pin_or_dash(out, at, two);
        return put_next(out, a, three);
    }
    put_pin_or_dash(out, at, three)
}

// The last digit of a number.
fn digit(n: usize) -> u8
    ensures { result ≡ digit n }
{
    48 + (n % 10) as u8
}

// The digit at a power of ten, if the number reaches it.
fn put_digit(out: &mut [u8], at: usize, n: usize, power: usize) -> usize
    requires { (at + 1 ≤ length out.old) × (0 < power) }
    ensures { Put out.old at (digit_at power n) result out.new × (result ≤ at + 1) }
{
    if n < power {
        return at;
    }
    put(out, at, &[digit(n / power)])
}

// The digits of a number above its last four. Places and zones have none, which is asked once and not four times.
fn put_upper(out: &mut [u8], at: usize, n: usize) -> usize
    requires { at + 4 ≤ length out.old }
    ensures { Put out.old at (upper n) result out.new × (result ≤ at + 4) }
{
    if n < 10000 {
        return at;
    }
    let a = put_digit(out, at, n, 10000000);
    let b = put_digit(out, a, n, 1000000);
    let c = put_digit(out, b, n, 100000);
    put_digit(out, c, n, 10000)
}

fn hex_digit(n: u8) -> u8
    requires { n < 16 }
    ensures { result ≡ hex_digit n }
{
    if n < 10 { 48 + n } else { 55 + n }
}

// `P`, port, `.`, pin.
fn pin_text(p: u8) -> [u8; 4]
    ensures { result ≡ pin_text p }
{
    [80, digit((p / 16) as usize), 46, digit((p % 16) as usize)]
}

// A comma and a pin; nothing of an unused place.
fn put_next(out: &mut [u8], at: usize, p: u8) -> usize
    requires { at + 5 ≤ length out.old }
    ensures { Put out.old at (next p) result out.new × (result ≤ at + 5) }
{
    if p == 255 {
        return at;
    }
    let a = put(out, at, &[44]);
    let text = pin_text(p);
    put(out, a, &text)
}
