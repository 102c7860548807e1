// What the calls of a commissioning hub refuse, each with its own cases.
ghost use Rattle.std.specs.Prelude.{◌≡◌, Some};
ghost use Rattle.hub.specs.Numbers.{ask_number, read_number, write_number};
ghost use Rattle.hub.specs.Texts.{hub_text, write_text};
ghost use Rattle.hub.specs.declared.refusals.ReadRefusal.TheVariants.{Fault, NoMemory};

use rules::SetFault;
use std::alloc::AllocError;
use std::fmt;

// Why a hub cannot be made.
#[derive(Clone, Copy, Debug, PartialEq, Eq)]
pub enum HubRefusal {
    OutOfRange = 21,
}

impl HubRefusal {
    // Stays: a cast in one line; a trait of refusals would want the same line of each.
    pub fn number(self) -> u8
        ensures { result ≡ ask_number self }
    {
        self as u8
    }
}

impl fmt::Display for HubRefusal {
    ghost output = { λ refusal. Some (hub_text refusal) };

    fn fmt<W: fmt::Write>(&self, f: &mut fmt::Formatter<W>) -> fmt::Result {
        f.write_str(match *self {
            HubRefusal::OutOfRange => "out of range",
        })
    }
}

// Why a rule set is not taken; want of memory has no number.
#[derive(Clone, Copy, Debug, PartialEq, Eq)]
pub enum ReadRefusal {
    Fault(SetFault),
    NoMemory,
}

impl ReadRefusal {
    pub fn number(self) -> Option<u8>
        ensures { result ≡ read_number self }
    {
        match self {
            ReadRefusal::Fault(fault) => Some(fault.number()),
            ReadRefusal::NoMemory => None,
        }
    }
}

impl From<SetFault> for ReadRefusal {
    ghost from_gives = { λ x y. y ≡ Fault x };

    fn from(fault: SetFault) -> ReadRefusal {
        ReadRefusal::Fault(fault)
    }
}

impl From<AllocError> for ReadRefusal {
    ghost from_gives = { λ x y. y ≡ NoMemory };

    fn from(_error: AllocError) -> ReadRefusal {
        ReadRefusal::NoMemory
    }
}

// Why a rule set is not written out.
#[derive(Clone, Copy, Debug, PartialEq, Eq)]
pub enum WriteRefusal {
    Short = 39,
}

impl WriteRefusal {
    // Stays: a cast in one line; a trait of refusals would want the same line of each.
    pub fn number(self) -> u8
        ensures { result ≡ write_number self }
    {
        self as u8
    }
}

impl fmt::Display for WriteRefusal {
    ghost output = { λ refusal. Some (write_text refusal) };

    fn fmt<W: fmt::Write>(&self, f: &mut fmt::Formatter<W>) -> fmt::Result {
        f.write_str(match *self {
            WriteRefusal::Short => "buffer too short",
        })
    }
}
