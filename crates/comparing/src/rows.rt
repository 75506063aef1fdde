// The fields of each kind as rows of a constant table: how a field stands in the bytes, its offset, its name.
ghost use Rattle.std.specs.Prelude.{◌≡◌, ◌+◌, ◌<◌, ◌≤◌, length, get_or};
ghost use Rattle.format.specs.Slots.{byte};
ghost use Rattle.comparing.specs.Rows.{ways, offsets, firsts, counts, placeds, way_number, reading, code_at, name_text};

// How a field stands in the bytes at its offset.
#[derive(Clone, Copy)]
pub enum Way {
    Byte,
    LowNibble,
    HighNibble,
    Word,
    Pin,
    // An address, of which another byte is read, by the bus before it.
    Address,
    Triple,
    TopBit,
    LowBits,
}

// A field: its name and how long that is, how it stands in the bytes, and at which offset. The letters stand in the row itself: a text
// behind a reference would have to be relocated where the archive is loaded.
#[derive(Clone, Copy)]
struct Row([u8; 29], u8, Way, u8);

// A kind's rows: the first of its own, how many they are, and how many it has before them.
#[derive(Clone, Copy)]
pub struct OfKind(pub u8, pub u8, pub u8);

static ROWS: [Row; 59] = [
    Row(*b"string index                 ", 12, Way::Byte, 3),
    Row(*b"x pos                        ", 5, Way::Byte, 4),
    Row(*b"y pos                        ", 5, Way::Byte, 5),
    Row(*b"z pos                        ", 5, Way::Byte, 6),
    Row(*b"zone identifier              ", 15, Way::Byte, 7),
    Row(*b"esa device type              ", 15, Way::Byte, 3),
    Row(*b"string index                 ", 12, Way::Byte, 4),
    Row(*b"serial number                ", 13, Way::Triple, 5),
    Row(*b"spwr                         ", 4, Way::TopBit, 8),
    Row(*b"power units                  ", 11, Way::LowBits, 8),
    Row(*b"hardware revision 0          ", 19, Way::Pin, 9),
    Row(*b"hardware revision 1          ", 19, Way::Pin, 10),
    Row(*b"hardware revision 2          ", 19, Way::Pin, 11),
    Row(*b"bus type                     ", 8, Way::LowNibble, 8),
    Row(*b"device address               ", 14, Way::Address, 8),
    Row(*b"temperature lsb read register", 29, Way::Word, 11),
    Row(*b"temperature msb read register", 29, Way::Word, 13),
    Row(*b"minimum value                ", 13, Way::Word, 15),
    Row(*b"minimum temp                 ", 12, Way::Byte, 17),
    Row(*b"maximum value                ", 13, Way::Word, 18),
    Row(*b"maximum temp                 ", 12, Way::Byte, 20),
    Row(*b"thermal analog type          ", 19, Way::LowNibble, 8),
    Row(*b"pin                          ", 3, Way::Pin, 9),
    Row(*b"value0                       ", 6, Way::Word, 10),
    Row(*b"value25                      ", 7, Way::Word, 12),
    Row(*b"value50                      ", 7, Way::Word, 14),
    Row(*b"value75                      ", 7, Way::Word, 16),
    Row(*b"value100                     ", 8, Way::Word, 18),
    Row(*b"pwm                          ", 3, Way::Pin, 8),
    Row(*b"tach                         ", 4, Way::Pin, 9),
    Row(*b"ppr                          ", 3, Way::Byte, 10),
    Row(*b"minimum rpm                  ", 11, Way::Word, 11),
    Row(*b"maximum rpm                  ", 11, Way::Word, 13),
    Row(*b"minimum duty cycle           ", 18, Way::Byte, 15),
    Row(*b"pin1                         ", 4, Way::Pin, 8),
    Row(*b"color1                       ", 6, Way::HighNibble, 9),
    Row(*b"purpose1                     ", 8, Way::LowNibble, 9),
    Row(*b"pin2                         ", 4, Way::Pin, 10),
    Row(*b"color2                       ", 6, Way::HighNibble, 11),
    Row(*b"purpose2                     ", 8, Way::LowNibble, 11),
    Row(*b"pin3                         ", 4, Way::Pin, 12),
    Row(*b"color3                       ", 6, Way::HighNibble, 13),
    Row(*b"purpose3                     ", 8, Way::LowNibble, 13),
    Row(*b"pin                          ", 3, Way::Pin, 8),
    Row(*b"full                         ", 4, Way::Word, 9),
    Row(*b"empty                        ", 5, Way::Word, 11),
    Row(*b"warning                      ", 7, Way::Word, 13),
    Row(*b"pin                          ", 3, Way::Pin, 8),
    Row(*b"vmax                         ", 4, Way::Byte, 9),
    Row(*b"vmin                         ", 4, Way::Byte, 10),
    Row(*b"pin                          ", 3, Way::Pin, 8),
    Row(*b"imin                         ", 4, Way::Word, 10),
    Row(*b"imax                         ", 4, Way::Word, 12),
    Row(*b"bus type                     ", 8, Way::LowNibble, 8),
    Row(*b"device address               ", 14, Way::Address, 8),
    Row(*b"chip identifier              ", 15, Way::Byte, 11),
    Row(*b"red                          ", 3, Way::Pin, 8),
    Row(*b"green                        ", 5, Way::Pin, 9),
    Row(*b"blue                         ", 4, Way::Pin, 10),
];

static KINDS: [OfKind; 15] = [
    OfKind(0, 0, 0),
    OfKind(13, 8, 5),
    OfKind(21, 7, 5),
    OfKind(28, 6, 5),
    OfKind(34, 9, 5),
    OfKind(43, 4, 5),
    OfKind(28, 6, 5),
    OfKind(47, 3, 5),
    OfKind(50, 3, 5),
    OfKind(13, 2, 5),
    OfKind(13, 2, 5),
    OfKind(0, 0, 0),
    OfKind(0, 0, 0),
    OfKind(53, 3, 5),
    OfKind(56, 3, 5),
];

// The rows of a kind.
pub fn of_kind(id: usize) -> OfKind
    requires { id < 15 }
    ensures { (result.0 ≡ get_or firsts id 0) × (result.1 ≡ get_or counts id 0) × (result.2 ≡ get_or placeds id 0) }
{
    KINDS[id]
}

// A row's name.
pub fn name(i: usize) -> &'static [u8]
    requires { i < 59 }
    ensures { (result.now ≡ name_text i) × (length result.now ≤ 29) }
{
    let row = &ROWS[i];
    let n = usize::from(row.1);
    &row.0[..n]
}

// How a row's field stands in the bytes.
fn way_of(i: usize) -> Way
    requires { i < 59 }
    ensures { way_number result ≡ get_or ways i 0 }
{
    ROWS[i].2
}

// A row's offset.
fn offset(i: usize) -> usize
    requires { i < 59 }
    ensures { (result ≡ get_or offsets i 0) × (result < 256) }
{
    usize::from(ROWS[i].3)
}

// The byte at a place, 0 past the end.
fn at_or_zero(t: &[u8], k: usize) -> usize
    ensures { (result ≡ byte t.now k) × (result < 256) }
{
    usize::from(t.get(k).copied().unwrap_or(0))
}

// The content of three bytes.
fn read(w: Way, x: usize, y: usize, z: usize) -> usize
    requires { (x < 256) × (y < 256) × (z < 256) }
    ensures { (result ≡ reading (way_number w) x y z) × (result < 16777472) }
{
    match w {
        Way::Byte => x,
        Way::LowNibble => x % 16,
        Way::HighNibble => x / 16,
        Way::Word => x + 256 * y,
        Way::Pin => 16777216 + x,
        Way::Address => if x % 16 == 3 { 16777216 + y } else { y / 2 },
        Way::Triple => x + 256 * y + 65536 * z,
        Way::TopBit => x / 128,
        Way::LowBits => x % 128,
    }
}

// The content of row i, of what stands at a place of a table.
pub fn content(t: &[u8], at: usize, i: usize) -> usize
    requires { (i < 59) × (at ≤ 4096) }
    ensures { (result ≡ code_at t.now at i) × (result < 16777472) }
{
    let k = at + offset(i);
    let x = at_or_zero(t, k);
    let y = at_or_zero(t, k + 1);
    let z = at_or_zero(t, k + 2);
    read(way_of(i), x, y, z)
}
