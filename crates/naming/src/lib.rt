// What elements name, noted by number with the place of the first that does: their zones and their strings.
#![tactic(auto)]

ghost use Rattle.std.specs.Prelude.{◌≡◌, ◌+◌, ◌<◌, ◌≤◌};
ghost use Rattle.format.specs.Slots.{byte};
ghost use Rattle.naming.specs.Naming.{SamePlaces, Names, LengthIs, OneNamed, AllNamed};

// For each zone number and each string number the place of the first element that names it, 0 where none does, as they are lent.
#[derive(Drop)]
pub struct Places<'a> {
    pub zones: &'a mut [u16; 256],
    pub strings: &'a mut [u16; 256],
}

// A byte of a slice, 0 past its end.
fn byte_at(p: &[u8], i: usize) -> u8
    ensures { result ≡ byte p.now i }
{
    p.get(i).copied().unwrap_or(0)
}

// An element by its identifier and its bytes after the header: it names its zone and its string, a zone descriptor its string alone,
// a string nothing.
pub fn name(id: u8, b: &[u8], at: usize, places: &mut Places)
    requires { at < 65536 }
    ensures names { Names id b.now at
        places.old.zones.now places.old.strings.now
        places.new.zones.now places.new.strings.now }
    ensures same_places { SamePlaces places.old places.new }
{
    if id == 12 {
        return;
    }
    if id == 11 {
        firsts::note(places.strings, byte_at(b, 1), at as u16);
        return;
    }
    firsts::note(places.zones, byte_at(b, 4), at as u16);
    firsts::note(places.strings, byte_at(b, 0), at as u16);
}

// The length that the header at a place gives; at least 3.
fn length_at(p: &[u8], i: usize) -> usize
    requires { i ≤ 4097 }
    ensures { LengthIs p.now i result }
{
    let len = usize::from(byte_at(p, i + 1)) + 256 * usize::from(byte_at(p, i + 2));
    len.max(3)
}

// The element at a place of some bytes, where it is all there, and its length; `base` is the place of the first byte in the table.
fn name_one(p: &[u8], i: usize, base: usize, places: &mut Places) -> usize
    requires { base + i ≤ 4097 }
    ensures names { OneNamed p.now i base
        places.old.zones.now places.old.strings.now result
        places.new.zones.now places.new.strings.now }
    ensures same_places { SamePlaces places.old places.new }
{
    let len = length_at(p, i);
    let to = i + len;
    if p.len() < to {
        return len;
    }
    let from = i + 3;
    name(p[i], &p[from..to], base + i, places);
    len
}

// All elements of some bytes, up to a place of them.
pub fn name_all(p: &[u8], to: usize, base: usize, places: &mut Places)
    requires { base + to ≤ 4097 }
    ensures names { AllNamed p.now to base
        places.old.zones.now places.old.strings.now
        places.new.zones.now places.new.strings.now }
    ensures same_places { SamePlaces places.old places.new }
{
    let mut i: usize = 0;
    while i < to {
        i += name_one(p, i, base, places);
    }
}
