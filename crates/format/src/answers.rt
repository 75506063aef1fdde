// What the calls answer: a value, or a refusal with its rule and its place.

ghost use Rattle.std.specs.Prelude.{◌≡◌};
ghost use Rattle.format.specs.Answers.{rule_number};

// The rules that a call can refuse by. specs/Answers gives each its number of 'What comes back'.
#[derive(Clone, Copy, PartialEq, Eq)]
pub enum Rule {
    Under16Bytes,
    Revision,
    TableLength,
    DeviceType,
    Power,
    ElementLength,
    Identifier,
    Layout,
    Code,
    Pin,
    TooMany,
    Twice,
    NoZone,
    NoString,
    Clash,
    NoRoom,
    PastTheLast,
    NoReading,
    TraceLine,
    AfterTheEnd,
    Hex,
    StillNamed,
    Retired,
    Lost,
    TooLarge,
}

// The rule that is broken, and where: the place of an element, or 0.
#[derive(Clone, Copy, PartialEq, Eq)]
pub struct Refusal {
    pub rule: Rule,
    pub place: usize,
}

impl Rule {
    pub fn number(self) -> u8
        ensures { result ≡ rule_number self }
    {
        match self {
            Rule::Under16Bytes => 1,
            Rule::Revision => 2,
            Rule::TableLength => 3,
            Rule::DeviceType => 4,
            Rule::Power => 5,
            Rule::ElementLength => 6,
            Rule::Identifier => 7,
            Rule::Layout => 8,
            Rule::Code => 9,
            Rule::Pin => 10,
            Rule::TooMany => 11,
            Rule::Twice => 12,
            Rule::NoZone => 13,
            Rule::NoString => 14,
            Rule::Clash => 15,
            Rule::NoRoom => 16,
            Rule::PastTheLast => 17,
            Rule::NoReading => 18,
            Rule::TraceLine => 19,
            Rule::AfterTheEnd => 20,
            Rule::Hex => 21,
            Rule::StillNamed => 22,
            Rule::Retired => 23,
            Rule::Lost => 24,
            Rule::TooLarge => 25,
        }
    }

    // A refusal by this rule at a place.
    pub fn at(self, place: usize) -> Refusal
        ensures { result ≡ record { rule = self; place = place } }
    {
        Refusal { rule: self, place }
    }
}
