// What can stop a step: a rule, or any number but 0 in the place of one. The pass itself is stopped by rules alone.
ghost use Rattle.std.specs.Prelude.{◌≡◌, ℕ};
ghost use Rattle.std.specs.NonZero.{non_zero_u8_get};
ghost use Rattle.format.specs.Answers.{rule_number};
ghost use Rattle.pass.specs.Stopping.{above_zero, a_rule};

use format::answers::Rule;
use std::num::NonZeroU8;

pub trait Stops: Copy {
    ghost number_of: { Self → ℕ };

    fn by(rule: Rule) -> Self
        ensures { number_of result ≡ rule_number rule };

    // 0 is the number of nothing that stops.
    ghost above: { (e : Self) → number_of e ≡ 0 → ⊥ };
}

impl Stops for Rule {
    ghost number_of = { rule_number };

    ghost above = { a_rule };

    fn by(rule: Rule) -> Rule {
        rule
    }
}

impl Stops for NonZeroU8 {
    ghost number_of = { non_zero_u8_get };

    ghost above = { λ n. above_zero n.ok };

    fn by(rule: Rule) -> NonZeroU8 {
        NonZeroU8::new(rule.number()).unwrap_or(NonZeroU8::MAX)
    }
}
