// A word that is a number, in decimal.
ghost use Rattle.std.specs.Prelude.{◌≡◌, ◌≤◌, ◌<◌};
ghost use Rattle.options.specs.Numerals.{number_below};

// The number that a word of 1 to 9 digits is, if it is below a limit; zeros may stand before it.
pub fn below(word: &[u8], limit: usize) -> Option<usize>
    requires { (0 < limit) × (limit ≤ 1000000000) }
    ensures { result ≡ number_below limit word.now }
{
    if word.is_empty() || 9 < word.len() {
        return None;
    }
    let mut n = 0;
    for b in word {
        if !b.is_ascii_digit() {
            return None;
        }
        n = 10 * n + usize::from(*b - b'0');
        if limit <= n {
            return None;
        }
    }
    Some(n)
}
