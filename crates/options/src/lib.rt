// The options of a program, which stand first among its words: `--chip 320` or `--chip 321`, the 320 if no chip is named; `--archive`
// for the archive's rules, else the ordinary ones; `--` ends them. What a word is and what it changes is proved; where the words come
// from is the system's affair.
#![tactic(auto)]

ghost use Rattle.std.specs.Prelude.{◌≡◌, ◌+◌, ◌^◌, ◌<◌, ◌≤◌, length, Ok, IfSome};
ghost use Rattle.options.specs.declared.Chosen.{Chosen};
ghost use Rattle.options.specs.Steps.{wanted, archived_of, option_of, number_of, step_of, last_of, settings_of, ordinary_of};

use format::pins::Chip;
use format::settings::{Rules, Settings};
use std::env::FillError;
use std::error::Error;
use std::fs::File;
use std::rt::{Env, Files};
use std::{fmt, io};

pub mod numerals;
mod words;

// What a word is where an option may stand.
#[derive(Clone, Copy, Debug, PartialEq, Eq)]
pub enum Word {
    // its number comes next
    Chip,
    Archive,
    // the end of the options
    End,
    // no option, and it starts with a dash
    Dashed,
    Plain,
}

// What the options so far have chosen.
#[derive(Clone, Copy)]
pub struct Choice {
    pub chip: Option<Chip>,
    pub rules: Rules,
}

// What is wrong with the words.
#[derive(Clone, Copy, Debug, PartialEq, Eq)]
pub enum Misuse {
    Unknown,
    NoChip,
    ChipTwice,
    ArchiveTwice,
    // --archive, to a program that has one set of rules
    NoArchive,
    // a word more behind the options of a program that takes none
    Extra,
}

// How far the words are read, so long as nothing is wrong with them.
#[derive(Clone, Copy)]
pub enum Stage {
    // an option may come
    Open(Choice),
    // --chip was read, and its number must come
    Wants(Choice),
    // the options end with this word
    Ended(Choice),
    // and before this word
    Others(Choice),
}

// What all words say: the settings, and the index of the first word behind the options.
#[derive(Clone, Copy)]
pub struct Chosen {
    pub settings: Settings,
    pub next: usize,
}

// --chip stands once.
fn wants_chip(c: Choice) -> Result<Stage, Misuse>
    ensures { result ≡ wanted c }
{
    match c.chip {
        None => Ok(Stage::Wants(c)),
        Some(_) => Err(Misuse::ChipTwice),
    }
}

// --archive stands once.
fn archived(c: Choice) -> Result<Stage, Misuse>
    ensures { result ≡ archived_of c }
{
    match c.rules {
        Rules::Ordinary => Ok(Stage::Open(Choice {
            rules: Rules::Archive,
            ..c
        })),
        Rules::Archive => Err(Misuse::ArchiveTwice),
    }
}

// A word where an option may stand.
fn option(c: Choice, word: Word) -> Result<Stage, Misuse>
    ensures { result ≡ option_of c word }
{
    match word {
        Word::Chip => wants_chip(c),
        Word::Archive => archived(c),
        Word::End => Ok(Stage::Ended(c)),
        Word::Dashed => Err(Misuse::Unknown),
        Word::Plain => Ok(Stage::Others(c)),
    }
}

// The word behind --chip.
fn number(c: Choice, chip: Option<Chip>) -> Result<Stage, Misuse>
    ensures { result ≡ number_of c chip }
{
    match chip {
        None => Err(Misuse::NoChip),
        Some(_) => Ok(Stage::Open(Choice { chip, ..c })),
    }
}

// One word more.
pub fn step(stage: Result<Stage, Misuse>, word: &[u8]) -> Result<Stage, Misuse>
    ensures { result ≡ step_of stage word.now }
{
    match stage? {
        Stage::Open(c) => option(c, words::word_of(word)),
        Stage::Wants(c) => number(c, words::chip_of(word)),
        Stage::Ended(c) | Stage::Others(c) => Ok(Stage::Others(c)),
    }
}

// The settings of a choice.
fn settings_of(c: Choice) -> Settings
    ensures { result ≡ settings_of c }
{
    Settings {
        chip: c.chip.unwrap_or(Chip::C8051F320),
        rules: c.rules,
    }
}

// What has come of the words, of which the first that is no option has index i.
pub fn last(stage: Result<Stage, Misuse>, i: usize) -> Result<Chosen, Misuse>
    ensures { result ≡ last_of stage i }
{
    match stage? {
        Stage::Wants(_) => Err(Misuse::NoChip),
        Stage::Open(c) | Stage::Ended(c) | Stage::Others(c) => Ok(Chosen {
            settings: settings_of(c),
            next: i,
        }),
    }
}

// The same for a program that has the ordinary rules alone.
pub fn ordinary(chosen: Result<Chosen, Misuse>) -> Result<Chosen, Misuse>
    ensures { result ≡ ordinary_of chosen }
{
    let chosen = chosen?;
    match chosen.settings.rules {
        Rules::Ordinary => Ok(chosen),
        Rules::Archive => Err(Misuse::NoArchive),
    }
}

// The bytes of word i, in the buffer lent: none where it holds no such word whole.
pub fn read_word<'a>(rt: &impl Env, i: usize, buffer: &'a mut [u8]) -> &'a [u8]
    ensures { length result.now ≤ length buffer.old }
{
    let length = rt.arg(i, buffer).unwrap_or(0);
    &buffer[..length]
}

// How many words there are, the program's name among them. No program has 2^64 - 1.
pub fn count_words(rt: &impl Env) -> usize {
    let mut first = [0u8; 1];
    for i in 0..usize::MAX {
        if let Err(FillError::NotPresent) = rt.arg(i, &mut first) {
            return i;
        }
    }
    usize::MAX
}

// How many words there are from word `first` on.
pub fn count_from(rt: &impl Env, first: usize) -> usize
    ensures { first + result < 2 ^ 64 }
{
    count_words(rt).saturating_sub(first)
}

// The number below a limit that word `first` is, where as many words as one to `most` stand from it on.
pub fn number_behind(rt: &impl Env, first: usize, most: usize, limit: usize) -> Option<usize>
    requires { (0 < limit) × (limit ≤ 1000000000) }
    ensures below { IfSome result (λ n. n < limit) }
    ensures counted { IfSome result (λ n. first + 1 < 2 ^ 64) }
{
    let count = count_from(rt, first);
    if count == 0 || most < count {
        return None;
    }
    let mut buffer = [0u8; 4096];
    numerals::below(read_word(rt, first, &mut buffer), limit)
}

// The file that word i names. A path is text here: a word that is no UTF-8 names no file.
pub fn open_file<R: Env + Files>(rt: &R, i: usize) -> io::Result<R::File> {
    let mut path = [0u8; 4096];
    match str::from_utf8(read_word(rt, i, &mut path)) {
        Ok(name) => File::open(rt, name),
        Err(_) => Err(io::Error::from(io::ErrorKind::InvalidFilename)),
    }
}

// The table in the file that word i names, or none where it cannot be read.
pub fn named_table<'a>(
    rt: &(impl Env + Files),
    i: usize,
    table: &'a mut [u8; 4097],
) -> Option<&'a [u8]>
    ensures { IfSome result (λ read. length read.now ≤ 4097) }
{
    let mut file = open_file(rt, i).ok()?;
    sending::read_table(&mut file, table)
}

fn step_at(rt: &impl Env, stage: Result<Stage, Misuse>, i: usize) -> Result<Stage, Misuse> {
    let mut buffer = [0u8; 4096];
    step(stage, read_word(rt, i, &mut buffer))
}

// The program's options.
pub fn read(rt: &impl Env) -> Result<Chosen, Misuse> {
    let n = count_words(rt);
    let mut stage = Ok(Stage::Open(Choice {
        chip: None,
        rules: Rules::Ordinary,
    }));
    for i in 1..n {
        stage = step_at(rt, stage, i);
        match stage {
            Ok(Stage::Open(_) | Stage::Wants(_)) => {}
            Ok(Stage::Ended(_)) => return last(stage, i + 1),
            Ok(Stage::Others(_)) | Err(_) => return last(stage, i),
        }
    }
    last(stage, n.max(1))
}

// The same for a program that takes no other word.
pub fn read_alone(rt: &impl Env) -> Result<Chosen, Misuse> {
    let chosen = read(rt)?;
    if chosen.next < count_words(rt) {
        return Err(Misuse::Extra);
    }
    Ok(chosen)
}

impl fmt::Display for Misuse {
    fn fmt<W: fmt::Write>(&self, f: &mut fmt::Formatter<W>) -> fmt::Result {
        f.write_str(match self {
            Misuse::Unknown => {
                "A word is no option: there are --chip 320, --chip 321 and --archive, and -- ends the options."
            }
            Misuse::NoChip => "Behind --chip stands 320 or 321.",
            Misuse::ChipTwice => "The option --chip stands more than once.",
            Misuse::ArchiveTwice => "The option --archive stands more than once.",
            Misuse::NoArchive => {
                "The option --archive is not taken here: this program has one set of rules."
            }
            Misuse::Extra => {
                "A word stands behind the options, and none is taken: the table comes on standard input."
            }
        })
    }
}

impl Error for Misuse {}

// What is wrong, to standard error.
pub fn complain(rt: &impl Eprint, misuse: Misuse) -> io::Result<()> {
    eprintln!(rt; "{misuse}")
}

// Runs a program on what its words have chosen, or says what is wrong with them.
pub fn run<F: FnOnce(Chosen) -> io::Result<()>>(
    rt: &impl Eprint,
    chosen: Result<Chosen, Misuse>,
    program: F,
) -> io::Result<()>
    requires { F.IsAlwaysCallable program }
    ensures { (c : Chosen) → chosen ≡ Ok c → F.post program c result }
{
    match chosen {
        Ok(c) => program(c),
        Err(misuse) => complain(rt, misuse),
    }
}
