// Numbers of two and four bytes, lowest byte first.
#![tactic(auto)]

ghost use Rattle.std.specs.Prelude.{◌≡◌, ◌+◌, ◌<◌, length};
ghost use Rattle.format.specs.Slots.{byte};
ghost use Rattle.format.specs.Decode.{word_at};
ghost use Rattle.words.specs.Widths.{long_at};

// The number in the two bytes from a place on.
pub fn word(b: &[u8], i: usize) -> u16
    requires { i + 1 < length b.now }
    ensures { result ≡ word_at (byte b.now) i }
{
    u16::from(b[i]) + 256 * u16::from(b[i + 1])
}

// The number in the four bytes from a place on.
pub fn long(b: &[u8], i: usize) -> u32
    requires { i + 3 < length b.now }
    ensures { result ≡ long_at (byte b.now) i }
{
    u32::from(b[i])
        + 256 * u32::from(b[i + 1])
        + 65536 * u32::from(b[i + 2])
        + 16777216 * u32::from(b[i + 3])
}
