// The reserved places of an element that was copied into a lent buffer, set to zero by its identifier: no record is made. Kinds that are
// not named here have none.
#![tactic(auto)]

ghost use Rattle.std.specs.Prelude.{◌≡◌, ◌+◌, ◌≤◌, length};
ghost use Rattle.reserved.specs.Zeroed.{reach, on_bus, address_byte, bus_zeroed, zeroed};

// Of the element at a place.
pub fn clear_reserved(buf: &mut [u8], at: usize, id: u8)
    requires { at + reach id ≤ length buf.old }
    ensures { buf.new ≡ zeroed id at buf.old }
{
    if on_bus(id) {
        clear_bus(buf, at);
        return;
    }
    if id == 2 {
        buf[at + 8] = buf[at + 8] % 16;
        return;
    }
    if id == 8 {
        buf[at + 9] = 0;
        return;
    }
    if id == 10 {
        clear_bus(buf, at);
        buf[at + 11] = 0;
    }
}

// 01h, 09h, 0Dh; 0Ah has one reserved byte more.
fn on_bus(id: u8) -> bool
    ensures { result ≡ on_bus id }
{
    (id == 1) | (id == 9) | (id == 13)
}

// BUS TYPE and DEVICE ADDRESS, bytes 8 to 10.
fn clear_bus(buf: &mut [u8], at: usize)
    requires { at + 11 ≤ length buf.old }
    ensures { buf.new ≡ bus_zeroed at buf.old }
{
    let bus = buf[at + 8] % 16;
    let first = address_byte(bus, buf[at + 9]);
    buf[at + 8] = bus;
    buf[at + 9] = first;
    buf[at + 10] = 0;
}

// A chip select is a whole byte; an address on another bus leaves bit 0.
fn address_byte(bus: u8, first: u8) -> u8
    ensures { result ≡ address_byte bus first }
{
    if bus == 3 { first } else { 2 * (first / 2) }
}
