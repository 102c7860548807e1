ghost use Rattle.std.specs.Prelude.{◌≡◌, Some};
ghost use Rattle.links.specs.Numbers.{make_number};
ghost use Rattle.links.specs.Texts.{make_text};

use std::fmt;

// Why a store cannot be made.
#[derive(Clone, Copy, PartialEq, Eq, Debug)]
pub enum MakeRefusal {
    OutOfRange = 21,
}

impl MakeRefusal {
    // Stays: a cast in one line; a trait of refusals would want the same line of each.
    pub fn number(self) -> u8
        ensures { result ≡ make_number self }
    {
        self as u8
    }
}

impl fmt::Display for MakeRefusal {
    ghost output = { λ e. Some (make_text e) };

    fn fmt<W: fmt::Write>(&self, f: &mut fmt::Formatter<W>) -> fmt::Result {
        match self {
            MakeRefusal::OutOfRange => f.write_str("out of range"),
        }
    }
}
