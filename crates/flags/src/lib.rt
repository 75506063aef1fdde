// Flags for all 256 numbers: which of them are in a list.
#![tactic(auto)]

ghost use Rattle.std.specs.Prelude.{◌≡◌};
ghost use Rattle.flags.specs.Marks.{lacks_to, Lacks};

// Whether some number is used and not seen.
pub fn lacks(used: &[bool; 256], seen: &[bool; 256]) -> bool
    ensures { Lacks used.now seen.now result }
{
    lacks_one(used, seen)
}

fn lacks_one(used: &[bool; 256], seen: &[bool; 256]) -> bool
    ensures { result ≡ lacks_to 256 used.now seen.now }
{
    let mut bad = false;
    for i in 0..256 {
        bad = bad | (used[i] & !seen[i]);
    }
    bad
}
