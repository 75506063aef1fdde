// An element's header, fixed fields and part, side by side in a lent buffer; and the table's length. Every other byte is as it was.
#![tactic(auto)]

ghost use Rattle.std.specs.Prelude.{◌≡◌, true, ◌∷◌, ◌+◌, ◌<◌, ◌≤◌, length};
ghost use Rattle.format.specs.Slots.{whole, word, written};
ghost use Rattle.format.specs.Rules.{element_roomy};
ghost use Rattle.format.specs.Writing.{element_slots, overwritten};

use elements::id_of;
use format::records::Element;
use laying::{copy_into, fixed_length, put_fixed};

// An element with its part, from a place on.
pub fn put_element(buf: &mut [u8], at: usize, e: Element, part: &[u8])
    requires { (element_roomy e ≡ true) × (length (element_slots e part.now) ≤ 4096)
        × (at + length (element_slots e part.now) ≤ length buf.old) }
    ensures { buf.new ≡ overwritten at (written (element_slots e part.now)) buf.old }
{
    let n = fixed_length(e);
    let head = header(id_of(e), 3 + n + part.len());
    copy_into(buf, at, &head);
    put_fixed(buf, at + 3, e);
    copy_into(buf, at + 3 + n, part);
}

// The table's length in bytes 1-2.
pub fn put_length(buf: &mut [u8], n: usize)
    requires { (3 ≤ length buf.old) × (n < 65536) }
    ensures { buf.new ≡ overwritten 1 (written (word n)) buf.old }
{
    copy_into(buf, 1, &[(n % 256) as u8, (n / 256) as u8]);
}

// The header of an element of so many bytes: its identifier, then its length, lowest byte first.
fn header(id: u8, n: usize) -> [u8; 3]
    requires { n < 65536 }
    ensures { result ≡ written (whole id ∷ word n) }
{
    [id, (n % 256) as u8, (n / 256) as u8]
}
