// Text on the way, byte by byte.

// How far a text of UTF-16 has come: between two units, within one, after a high surrogate, within the unit after it; or it can
// be none any more.
#[derive(Clone, Copy)]
pub enum Reached {
    Even,
    Half,
    High,
    HalfAfterHigh,
    Bad,
}
