ghost use Rattle.std.specs.Prelude.{◌≡◌, Some};
ghost use Rattle.links.specs.Numbers.{insert_as_switch, switch_number};
ghost use Rattle.links.specs.Texts.{switch_text};

use ordered::InsertRefusal;
use std::fmt;

// Why a link is not switched.
#[derive(Clone, Copy, PartialEq, Eq, Debug)]
pub enum SwitchRefusal {
    NoSuchLink = 18,
    AlreadyOn = 34,
    NotOn = 35,
    Full = 37,
}

impl SwitchRefusal {
    // Stays: a cast in one line; a trait of refusals would want the same line of each.
    pub fn number(self) -> u8
        ensures { result ≡ switch_number self }
    {
        self as u8
    }
}

impl fmt::Display for SwitchRefusal {
    ghost output = { λ e. Some (switch_text e) };

    fn fmt<W: fmt::Write>(&self, f: &mut fmt::Formatter<W>) -> fmt::Result {
        f.write_str(match self {
            SwitchRefusal::NoSuchLink => "no such link",
            SwitchRefusal::AlreadyOn => "already on",
            SwitchRefusal::NotOn => "not on",
            SwitchRefusal::Full => "full",
        })
    }
}

impl From<InsertRefusal> for SwitchRefusal {
    ghost from_gives = { λ x y. y ≡ insert_as_switch x };

    fn from(refusal: InsertRefusal) -> SwitchRefusal {
        match refusal {
            InsertRefusal::AlreadyThere => SwitchRefusal::AlreadyOn,
            InsertRefusal::Full => SwitchRefusal::Full,
        }
    }
}
