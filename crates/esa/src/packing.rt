// Answers as one number: the number of 'What comes back', and 256 times what stands beside it.
ghost use Rattle.std.specs.Prelude.{◌≡◌, ◌+◌, ◌≤◌, ◌<◌};
ghost use Rattle.format.specs.Answers.{told, rule_number, value_of, place_of};
ghost use Rattle.labels.specs.Called.{source_of, sourced};
ghost use Rattle.comparing.specs.Outcomes.{outcome_of};
ghost use Rattle.saving.specs.Salvaged.{salvaged as salvaged_of};
ghost use Rattle.esa.specs.Face.{packs, packed, packed_asked};
ghost use Rattle.esa.specs.Places.{span as span_of};
ghost use Rattle.esa.specs.Labels.{within as withinOf, shown as shownOf, packed_label, Fitting};
ghost use Rattle.esa.specs.Fans.{one_if, packed_zoned, Bounded};
ghost use Rattle.esa.specs.Differences.{packed_outcome, Fitted};
ghost use Rattle.esa.specs.Blocks.{packed_block, packed_pair, packed_entries};
ghost use Rattle.esa.specs.Salvage.{packed_salvaged, SalvageFits};

use comparing::RefusedTable;
use fans::Visit;
use format::answers::Refusal;
use format::records::{Element, RegisterPair};
use labels::Source;
use parts::SpeedBlock;
use saving::Lengths;

// Of a check beside 0 the number of elements, of the writer, of Intel HEX and of a removal the new length. A text is longer than a table,
// and the number of a line may be over 4,096.
pub fn answer(a: Result<usize, Refusal>) -> u64
    requires { value_of (told a) ≤ 65538 }
    ensures { result ≡ packed (told a) }
{
    match a {
        Ok(n) => pack(0, n),
        Err(refusal) => refused(refusal),
    }
}

// The number of the rule, and beside it the place.
pub fn refused(refusal: Refusal) -> u64
    requires { refusal.place ≤ 65538 }
    ensures { result ≡ packs (rule_number refusal.rule) refusal.place }
{
    pack(refusal.rule.number(), refusal.place)
}

// Of an element: beside 0 its identifier.
pub fn asked(a: Result<Element, Refusal>) -> u64
    requires { place_of (told a) ≤ 4096 }
    ensures { result ≡ packed_asked (told a) }
{
    match a {
        Ok(e) => pack(0, usize::from(elements::id_of(e))),
        Err(refusal) => refused(refusal),
    }
}

// A place and a length in the table, beside 0.
pub fn span(place: usize, len: usize) -> u64
    requires { (place ≤ 4099) × (len ≤ 4096) }
    ensures { result ≡ span_of place len }
{
    pack(0, place + 65536 * len)
}

// Of a label: beside 0 from which slice it is, where in it and how long; `lent` is the length of the lent name.
pub fn label(found: Result<Source, Refusal>, lent: usize) -> u64
    requires { Fitting (sourced found) }
    ensures { result ≡ packed_label (sourced found) lent }
{
    match found {
        Ok(source) => called(source, lent),
        Err(refusal) => refused(refusal),
    }
}

fn called(source: Source, lent: usize) -> u64
    requires { Fitting (source_of source) }
    ensures { result ≡ packed_label (source_of source) lent }
{
    match source {
        Source::Text(place, len) => within(0, place, len),
        Source::Lent => within(1, 0, shown(lent)),
    }
}

// A part of one of two lent slices, beside 0: which slice, the place in it, and the length.
fn within(which: usize, place: usize, len: usize) -> u64
    requires { (which < 256) × (place < 16777216) × (len < 16777216) }
    ensures { result ≡ withinOf which place len }
{
    pack(0, which + 256 * (place + 16777216 * len))
}

// A length in 24 bits: of a longer one, the most that they can say.
fn shown(len: usize) -> usize
    ensures { (result ≡ shownOf len) × (result < 16777216) }
{
    if len < 16777216 { len } else { 16777215 }
}

// Of a zone: beside 0 how many elements were visited, and whether there is a fan or a pump.
pub fn zoned(z: Result<Visit, Refusal>) -> u64
    requires { Bounded (told z) }
    ensures { result ≡ packed_zoned (told z) }
{
    match z {
        Ok(v) => pack(0, 2 * v.count + usize::from(v.hit)),
        Err(refusal) => refused(refusal),
    }
}

// Of two tables: beside 0 the length of the text, beside a refusal its place and which table is refused.
pub fn outcome(o: Result<usize, RefusedTable>) -> u64
    requires { Fitted (outcome_of o) }
    ensures { result ≡ packed_outcome (outcome_of o) }
{
    match o {
        Ok(n) => pack(0, n),
        Err(r) => {
            let refusal = r.refusal;
            let place = refusal.place + 65536 * usize::from(r.which.number());
            pack(refusal.rule.number(), place)
        }
    }
}

// Of salvage: beside 0 the length of the new table and that of the text of the lines.
pub fn salvaged(s: Result<Lengths, Refusal>) -> u64
    requires { SalvageFits (salvaged_of s) }
    ensures { result ≡ packed_salvaged (salvaged_of s) }
{
    match s {
        Ok(l) => pack(0, l.table + 65536 * l.lines),
        Err(refusal) => refused(refusal),
    }
}

// SPEED and ENTRIES.
pub fn block(b: Option<SpeedBlock>) -> u64
    ensures { result ≡ packed_block b }
{
    match b {
        Some(s) => pack(0, usize::from(s.speed.0) + 256 * usize::from(s.entries)),
        None => 17,
    }
}

// Address and data.
pub fn pair(p: Option<RegisterPair>) -> u64
    ensures { result ≡ packed_pair p }
{
    match p {
        Some(q) => pack(0, (q.address as usize) + 65536 * (q.data as usize)),
        None => 17,
    }
}

// ENTRIES.
pub fn entries(e: Option<u8>) -> u64
    ensures { result ≡ packed_entries e }
{
    match e {
        Some(n) => pack(0, usize::from(n)),
        None => 17,
    }
}

// Under 2 to the 56th there is room for what stands beside.
pub fn pack(number: u8, beside: usize) -> u64
    requires { beside < 72057594037927936 }
    ensures { result ≡ packs number beside }
{
    (number as u64) + 256 * (beside as u64)
}
