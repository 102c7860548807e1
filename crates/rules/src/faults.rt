// The faults of the second pass and of a set, each with the place of its word.
ghost use Rattle.std.specs.Prelude.{◌≡◌};
ghost use Rattle.words.specs.Numbers.{number, layer};
ghost use Rattle.rules.specs.Marks.{fault_in};

use words::{Cause, Layer, RuleFault};

// The fault of a rule, with the place of the word.
#[derive(Clone, Copy, Debug, PartialEq, Eq)]
pub struct PlacedFault {
    pub place: usize,
    pub fault: RuleFault,
}

impl PlacedFault {
    // The same fault in a set, where it is that rule's.
    pub fn in_rule(self, rule: usize) -> SetFault
        ensures { result ≡ fault_in rule self }
    {
        SetFault {
            place: self.place,
            rule,
            cause: Cause::from(self.fault),
        }
    }
}

// The fault of a set, with the place of the word and its rule.
#[derive(Clone, Copy, Debug, PartialEq, Eq)]
pub struct SetFault {
    pub place: usize,
    pub rule: usize,
    pub cause: Cause,
}

impl SetFault {
    pub fn number(self) -> u8
        ensures { result ≡ number self.cause }
    {
        self.cause.number()
    }

    pub fn layer(self) -> Layer
        ensures { result ≡ layer self.cause }
    {
        self.cause.layer()
    }
}
