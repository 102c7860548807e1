ghost use Rattle.std.specs.Prelude.{◌≡◌, Some};
ghost use Rattle.shell.specs.Answers.{number_answer, refusal_number, rules_answer, switch_answer};
ghost use Rattle.shell.specs.Texts.{answer_text, refusal_text};
ghost use Rattle.shell.specs.declared.answer.Refusal.TheVariants as refusal;

use commands::Missing;
use hub::{HubRefusal, ReadRefusal, WriteRefusal};
use links::{MakeRefusal, SwitchRefusal};
use matching::SurveyRefusal;
use rules::SetFault;
use std::fmt;

// What a command is answered.
#[derive(Clone, Copy, PartialEq, Eq, Debug)]
pub enum Answer {
    Taken,
    Test(bool),
    Number(usize),
    Nothing,
    Refused(Refusal),
    Fault(SetFault),
    NoMemory,
    Unknown(Missing),
}

// A refusal of any layer.
#[derive(Clone, Copy, PartialEq, Eq, Debug)]
pub enum Refusal {
    Make(MakeRefusal),
    Switch(SwitchRefusal),
    Hub(HubRefusal),
    Write(WriteRefusal),
    Survey(SurveyRefusal),
}

impl Refusal {
    pub fn number(self) -> u8
        ensures { result ≡ refusal_number self }
    {
        match self {
            Refusal::Make(refusal) => refusal.number(),
            Refusal::Switch(refusal) => refusal.number(),
            Refusal::Hub(refusal) => refusal.number(),
            Refusal::Write(refusal) => refusal.number(),
            Refusal::Survey(refusal) => refusal.number(),
        }
    }
}

impl fmt::Display for Refusal {
    ghost output = { λ e. Some (refusal_text e) };

    fn fmt<W: fmt::Write>(&self, f: &mut fmt::Formatter<W>) -> fmt::Result {
        match *self {
            Refusal::Make(refusal) => write!(f, "{refusal}"),
            Refusal::Switch(refusal) => write!(f, "{refusal}"),
            Refusal::Hub(refusal) => write!(f, "{refusal}"),
            Refusal::Write(refusal) => write!(f, "{refusal}"),
            Refusal::Survey(refusal) => write!(f, "{refusal}"),
        }
    }
}

impl From<MakeRefusal> for Refusal {
    ghost from_gives = { λ x y. y ≡ refusal.Make x };

    fn from(refusal: MakeRefusal) -> Refusal {
        Refusal::Make(refusal)
    }
}

impl From<SwitchRefusal> for Refusal {
    ghost from_gives = { λ x y. y ≡ refusal.Switch x };

    fn from(refusal: SwitchRefusal) -> Refusal {
        Refusal::Switch(refusal)
    }
}

impl From<HubRefusal> for Refusal {
    ghost from_gives = { λ x y. y ≡ refusal.Hub x };

    fn from(refusal: HubRefusal) -> Refusal {
        Refusal::Hub(refusal)
    }
}

impl From<WriteRefusal> for Refusal {
    ghost from_gives = { λ x y. y ≡ refusal.Write x };

    fn from(refusal: WriteRefusal) -> Refusal {
        Refusal::Write(refusal)
    }
}

impl From<SurveyRefusal> for Refusal {
    ghost from_gives = { λ x y. y ≡ refusal.Survey x };

    fn from(refusal: SurveyRefusal) -> Refusal {
        Refusal::Survey(refusal)
    }
}

// What a switching is answered.
impl From<Result<(), SwitchRefusal>> for Answer {
    ghost from_gives = { λ res answer. answer ≡ switch_answer res };

    fn from(res: Result<(), SwitchRefusal>) -> Answer {
        match res {
            Ok(()) => Answer::Taken,
            Err(refusal) => Answer::Refused(refusal.into()),
        }
    }
}

// What a question for a node is answered.
impl From<Option<u32>> for Answer {
    ghost from_gives = { λ number answer. answer ≡ number_answer number };

    fn from(number: Option<u32>) -> Answer {
        match number {
            Some(number) => Answer::Number(number as usize),
            None => Answer::Nothing,
        }
    }
}

// What the reading of a rule set is answered.
impl From<Result<usize, ReadRefusal>> for Answer {
    ghost from_gives = { λ res answer. answer ≡ rules_answer res };

    fn from(res: Result<usize, ReadRefusal>) -> Answer {
        match res {
            Ok(rules) => Answer::Number(rules),
            Err(ReadRefusal::Fault(fault)) => Answer::Fault(fault),
            Err(ReadRefusal::NoMemory) => Answer::NoMemory,
        }
    }
}

impl fmt::Display for Answer {
    ghost output = { λ a. Some (answer_text a) };

    fn fmt<W: fmt::Write>(&self, f: &mut fmt::Formatter<W>) -> fmt::Result {
        match *self {
            Answer::Taken => f.write_str("taken"),
            Answer::Test(true) => f.write_str("taken yes"),
            Answer::Test(false) => f.write_str("taken no"),
            Answer::Number(number) => write!(f, "taken {number}"),
            Answer::Nothing => f.write_str("none"),
            Answer::Refused(refusal) => {
                let number = refusal.number();
                write!(f, "refused {number} {refusal}")
            }
            Answer::Fault(fault) => {
                let number = fault.number();
                let place = fault.place;
                let rule = fault.rule;
                let layer = fault.layer();
                write!(f, "fault {number} place {place} rule {rule} layer {layer}")
            }
            Answer::NoMemory => f.write_str("refused for want of memory"),
            Answer::Unknown(missing) => write!(f, "unknown {missing}"),
        }
    }
}
