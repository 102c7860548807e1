ghost use Rattle.std.specs.Prelude.{◌≡◌, Some};
ghost use Rattle.commands.specs.Texts.{missing_text};

use links::Link;
use std::fmt;

// A command asks for a store, uses the one in hand, settles the changes that it holds, or goes to the hub.
#[derive(Clone, Copy, PartialEq, Eq, Debug)]
pub enum Command {
    Make(Wanted),
    Use(Call),
    Settle,
    Hub(HubCall),
}

// What the hub is asked to do; the words of a rule set follow on the line.
#[derive(Clone, Copy, PartialEq, Eq, Debug)]
pub enum HubCall {
    Commission(WantedHub),
    Rules,
    Write(u32),
    Survey(Survey),
}

#[derive(Clone, Copy, PartialEq, Eq, Debug)]
pub struct WantedHub {
    pub plate: u32,
    pub life: u32,
    pub rows: u32,
}

// The survey of one rule, into a buffer of so many words where the line tells them.
#[derive(Clone, Copy, PartialEq, Eq, Debug)]
pub struct Survey {
    pub rule: u32,
    pub room: Option<u32>,
}

// What the store in hand is asked to do.
#[derive(Clone, Copy, PartialEq, Eq, Debug)]
pub enum Call {
    On(Link),
    Off(Link),
    Is(Link),
    Target(Question),
    Source(Question),
    Count,
    Spare,
}

// The next node behind or before a node, under a label, from a number on.
#[derive(Clone, Copy, PartialEq, Eq, Debug)]
pub struct Question {
    pub node: u32,
    pub label: u32,
    pub from: u32,
}

#[derive(Clone, Copy, PartialEq, Eq, Debug)]
pub enum Kind {
    List,
    Bits,
}

// A store that is asked for, with a layer over it that holds changes or without; `memory` counts its records or words, where the line tells them.
#[derive(Clone, Copy, PartialEq, Eq, Debug)]
pub struct Wanted {
    pub held: bool,
    pub kind: Kind,
    pub things: u32,
    pub limit: u32,
    pub memory: Option<u32>,
}

// Why a line is no command, or none that can be served.
#[derive(Clone, Copy, PartialEq, Eq, Debug)]
pub enum Missing {
    Command,
    Kind,
    Number,
    Link,
    End,
    Store,
    Word,
    Hub,
    Layer,
}

impl Missing {
    // Stays: a text that cannot fail, which `Display` prints.
    pub fn text(self) -> &'static str
        ensures { result.now ≡ missing_text self }
    {
        match self {
            Missing::Command => "no such command",
            Missing::Kind => "a store is list or bits",
            Missing::Number => "a number is missing, decimal and below 4294967296",
            Missing::Link => "a link is missing, written as 64-1-65",
            Missing::End => "too many words",
            Missing::Store => "no store",
            Missing::Word => "a word is 8 hexadecimal digits in upper case",
            Missing::Hub => "no hub",
            Missing::Layer => "no layer that holds changes",
        }
    }
}

impl fmt::Display for Missing {
    ghost output = { λ m. Some (missing_text m) };

    fn fmt<W: fmt::Write>(&self, f: &mut fmt::Formatter<W>) -> fmt::Result {
        f.write_str(self.text())
    }
}
