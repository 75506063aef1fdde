// Records of Intel HEX as text, put into a lent buffer; each function answers where its text ends.
#![tactic(auto)]

ghost use Rattle.std.specs.Prelude.{◌≡◌, ◌+◌, ◌*◌, ◌-◌, ◌%◌, ◌<◌, ◌≤◌, length};
ghost use Rattle.hextext.specs.Text.{sum};
ghost use Rattle.hextext.specs.Digits.{PutDigits, PutLine};

use spelling::{put, put_hex};

// The line of the end record: `:00000001FF` and a line feed.
pub const END: [u8; 12] = *b":00000001FF\n";

// The line of a data record.
pub fn put_data(out: &mut [u8], at: usize, address: usize, bytes: &[u8]) -> usize
    requires { (address < 65536) × (length bytes.now ≤ 255) × (at + 12 + 2 * length bytes.now ≤ length out.old) }
    ensures { PutLine out.old at address bytes.now result out.new }
{
    let n = bytes.len();
    let high = address / 256;
    let low = address % 256;
    let total = n + high + low + sum_of(bytes);
    let a = put(out, at, b":");
    let b = put_bytes(out, a, &[n as u8, high as u8, low as u8, 0]);
    let c = put_bytes(out, b, bytes);
    let d = put_hex(out, c, complement(total));
    put(out, d, b"\n")
}

// Two capital hex digits for each byte.
fn put_bytes(out: &mut [u8], at: usize, bytes: &[u8]) -> usize
    requires { at + 2 * length bytes.now ≤ length out.old }
    ensures { PutDigits out.old at bytes.now result out.new }
{
    let mut end = at;
    for b in bytes {
        end = put_hex(out, end, *b);
    }
    end
}

// The sum of some bytes.
fn sum_of(bytes: &[u8]) -> usize
    requires { length bytes.now ≤ 255 }
    ensures { (result ≡ sum bytes.now) × (result ≤ 65025) }
{
    bytes.iter().map(|b| usize::from(*b)).sum()
}

// What brings a sum to a multiple of 256.
fn complement(sum: usize) -> u8
    ensures { result ≡ (256 - sum % 256) % 256 }
{
    ((256 - sum % 256) % 256) as u8
}
