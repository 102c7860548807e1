// The faults of a reading, by the layer that finds them: a word's, a rule's and a set's, each carried whole into the next.
ghost use Rattle.std.specs.Prelude.{◌≡◌, Some};
ghost use Rattle.words.specs.Numbers.{number, layer, place_in_table};
ghost use Rattle.words.specs.Texts.{layer_text};
ghost use Rattle.words.specs.declared.faults.RuleFault.TheVariants.{Word as OfWord};
ghost use Rattle.words.specs.declared.faults.Cause.TheVariants.{InRule};

use crate::tables::FAULTS;
use std::fmt;

// The layer that found a fault.
#[derive(Clone, Copy, Debug, PartialEq, Eq)]
pub enum Layer {
    Word,
    Rule,
    Set,
}

impl fmt::Display for Layer {
    ghost output = { λ layer. Some (layer_text layer) };

    fn fmt<W: fmt::Write>(&self, f: &mut fmt::Formatter<W>) -> fmt::Result {
        f.write_str(match *self {
            Layer::Word => "word",
            Layer::Rule => "rule",
            Layer::Set => "set",
        })
    }
}

// A word with a kind outside 1 to 9, or with a stray bit.
#[derive(Clone, Copy, Debug, PartialEq, Eq)]
pub struct WordFault {
    pub word: u32,
}

#[derive(Clone, Copy, Debug, PartialEq, Eq)]
pub enum RuleFault {
    Word(WordFault),
    OutOfPlace,
    OutOfRange,
    Twice,
    Unanchored,
    SharesNothing,
    SharesTwice,
    LinksShared,
    TooMany,
    MadeAtStruck,
}

// Why a set is refused.
#[derive(Clone, Copy, Debug, PartialEq, Eq)]
pub enum Cause {
    InRule(RuleFault),
    TooManyRules,
    TooManyWords,
}

impl From<WordFault> for RuleFault {
    ghost from_gives = { λ x y. y ≡ OfWord x };

    fn from(fault: WordFault) -> RuleFault {
        RuleFault::Word(fault)
    }
}

impl From<RuleFault> for Cause {
    ghost from_gives = { λ x y. y ≡ InRule x };

    fn from(fault: RuleFault) -> Cause {
        Cause::InRule(fault)
    }
}

impl Cause {
    fn entry(self) -> usize
        ensures { result ≡ place_in_table self }
    {
        match self {
            Cause::InRule(fault) => match fault {
                RuleFault::Word(_) => 0,
                RuleFault::OutOfPlace => 1,
                RuleFault::OutOfRange => 2,
                RuleFault::Twice => 3,
                RuleFault::Unanchored => 4,
                RuleFault::SharesNothing => 5,
                RuleFault::SharesTwice => 6,
                RuleFault::LinksShared => 7,
                RuleFault::TooMany => 8,
                RuleFault::MadeAtStruck => 9,
            },
            Cause::TooManyRules => 10,
            Cause::TooManyWords => 11,
        }
    }

    pub fn number(self) -> u8
        ensures { result ≡ number self }
    {
        FAULTS[self.entry()].0
    }

    pub fn layer(self) -> Layer
        ensures { result ≡ layer self }
    {
        FAULTS[self.entry()].1
    }
}
