// What a word is.
ghost use Rattle.std.specs.Prelude.{◌≡◌, eqb};
ghost use Rattle.format.specs.Slots.{byte};
ghost use Rattle.options.specs.Words.{same_word, word_of, chip_of};

use crate::Word;
use format::pins::Chip;

// Whether two words are the same.
fn same(a: &[u8], b: &[u8]) -> bool
    ensures { result ≡ same_word a.now b.now }
{
    a == b
}

fn dashed(word: &[u8]) -> bool
    ensures { result ≡ eqb (byte word.now 0) 45 }
{
    word.starts_with(b"-")
}

// Where an option may stand.
pub fn word_of(word: &[u8]) -> Word
    ensures { result ≡ word_of word.now }
{
    if same(word, b"--chip") {
        Word::Chip
    } else if same(word, b"--archive") {
        Word::Archive
    } else if same(word, b"--") {
        Word::End
    } else if dashed(word) {
        Word::Dashed
    } else {
        Word::Plain
    }
}

// Behind --chip.
pub fn chip_of(word: &[u8]) -> Option<Chip>
    ensures { result ≡ chip_of word.now }
{
    if same(word, b"320") {
        Some(Chip::C8051F320)
    } else if same(word, b"321") {
        Some(Chip::C8051F321)
    } else {
        None
    }
}
