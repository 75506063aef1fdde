// For each of the 256 numbers the place of the first element that names it, 0 where none does; and the least place of a number
// that is named and not declared. With these the rules over the whole table, 13 and 14, need no second walk.
#![tactic(auto)]

ghost use Rattle.std.specs.Prelude.{◌≡◌, ◌<◌};
ghost use Rattle.firsts.specs.Firsts.{noted, pick, lesser, LeastTo};

// A number is named at a place.
pub fn note(l: &mut [u16; 256], n: u8, at: u16)
    ensures { l.new ≡ noted l.old n at }
{
    let i = usize::from(n);
    if l[i] == 0 {
        l[i] = at;
    }
}

// The lesser of two places; 0 is none.
fn lesser(a: usize, b: usize) -> usize
    ensures { result ≡ lesser a b }
{
    if b == 0 {
        return a;
    }
    if a == 0 {
        return b;
    }
    if b < a { b } else { a }
}

// The best place so far, or one of a number that is not seen.
fn better(best: usize, seen: bool, place: u16) -> usize
    ensures { result ≡ pick seen best (lesser best place) }
{
    if seen {
        return best;
    }
    lesser(best, usize::from(place))
}

// The least place of a number that is named and not declared; 0 where there is none.
pub fn least(l: &[u16; 256], seen: &[bool; 256]) -> usize
    ensures { LeastTo 256 l.now seen.now result }
{
    let mut best: usize = 0;
    for i in 0..256 {
        best = better(best, seen[i], l[i]);
    }
    best
}
