ghost use Rattle.std.specs.Prelude.{◌≡◌};
ghost use Rattle.std.specs.Option.{ok_or};
ghost use Rattle.commands.specs.declared.command.Missing.TheVariants as missing;
ghost use Rattle.commands.specs.Commands.{command_in, command_of, end_of, kind_of, link_in, memory_in, named, number_in, question_in, readers, store_in, survey_in, three_in, wanted_hub_in, wanted_in, with_rest, write_in};
ghost use Rattle.commands.specs.Words.{after_word, first_word};

use crate::command::{Call, Command, HubCall, Kind, Missing, Question, Survey, Wanted, WantedHub};
use crate::words::{Words, parse_link, parse_number};
use links::Link;

impl Words<'_> {
    fn number(&mut self) -> Result<u32, Missing>
        ensures number { with_rest self.new.text.now result ≡ number_in self.old.text.now }
        ensures rest { self.new.text.now ≡ after_word self.old.text.now }
    {
        self.next().and_then(parse_number).ok_or(Missing::Number)
    }

    // Refuses a word that is left.
    fn end(mut self) -> Result<(), Missing>
        ensures { result ≡ end_of self.entry.text.now }
    {
        match self.next() {
            None => Ok(()),
            Some(_) => Err(Missing::End),
        }
    }

    fn link(mut self) -> Result<Link, Missing>
        ensures { result ≡ link_in self.entry.text.now }
    {
        let link = self.next().and_then(parse_link).ok_or(Missing::Link)?;
        self.end()?;
        Ok(link)
    }

    // Three numbers, the last words.
    fn three_numbers(mut self) -> Result<(u32, u32, u32), Missing>
        ensures { result ≡ three_in self.entry.text.now }
    {
        let numbers = (self.number()?, self.number()?, self.number()?);
        self.end()?;
        Ok(numbers)
    }

    fn question(self) -> Result<Question, Missing>
        ensures { result ≡ question_in self.entry.text.now }
    {
        let (node, label, from) = self.three_numbers()?;
        Ok(Question { node, label, from })
    }

    fn wanted_hub(self) -> Result<WantedHub, Missing>
        ensures { result ≡ wanted_hub_in self.entry.text.now }
    {
        let (plate, life, rows) = self.three_numbers()?;
        Ok(WantedHub { plate, life, rows })
    }

    // The memory of a wanted store or the room of a buffer, or nothing.
    fn memory(mut self) -> Result<Option<u32>, Missing>
        ensures { result ≡ memory_in self.entry.text.now }
    {
        let Some(word) = self.next() else {
            return Ok(None);
        };
        let memory = parse_number(word).ok_or(Missing::Number)?;
        self.end()?;
        Ok(Some(memory))
    }

    fn kind(&mut self) -> Result<Kind, Missing>
        ensures kind { result ≡ ok_or (kind_of (first_word self.old.text.now)) missing.Kind }
        ensures rest { self.new.text.now ≡ after_word self.old.text.now }
    {
        match self.next() {
            Some(b"list") => Ok(Kind::List),
            Some(b"bits") => Ok(Kind::Bits),
            _ => Err(Missing::Kind),
        }
    }

    // The kind, the sizes and the memory of a wanted store.
    fn store(mut self, held: bool) -> Result<Wanted, Missing>
        ensures { result ≡ store_in held self.entry.text.now }
    {
        Ok(Wanted {
            held,
            kind: self.kind()?,
            things: self.number()?,
            limit: self.number()?,
            memory: self.memory()?,
        })
    }

    // A wanted store, with a layer that holds changes where `held` stands first.
    fn wanted(self) -> Result<Wanted, Missing>
        ensures { result ≡ wanted_in self.entry.text.now }
    {
        let mut behind = self;
        if behind.next() == Some(b"held") {
            behind.store(true)
        } else {
            self.store(false)
        }
    }

    // The room of a buffer.
    fn room(mut self) -> Result<u32, Missing>
        ensures { result ≡ write_in self.entry.text.now }
    {
        let room = self.number()?;
        self.end()?;
        Ok(room)
    }

    fn survey(mut self) -> Result<Survey, Missing>
        ensures { result ≡ survey_in self.entry.text.now }
    {
        Ok(Survey {
            rule: self.number()?,
            room: self.memory()?,
        })
    }

    // The command of a first word, which this one is, and of the words behind it.
    #[tactic(auto, using(std::proofs::lemmas::Grind::common_steps, crate::proofs::Names::five, crate::proofs::Names::six))]
    fn command(self, name: &[u8]) -> Result<Command, Missing>
        ensures { result ≡ command_in (named name.now readers) self.entry.text.now }
    {
        match name {
            b"store" => Ok(Command::Make(self.wanted()?)),
            b"settle" => self.end().map(|()| Command::Settle),
            b"hub" => Ok(Command::Hub(HubCall::Commission(self.wanted_hub()?))),
            b"rules" => Ok(Command::Hub(HubCall::Rules)),
            b"write" => Ok(Command::Hub(HubCall::Write(self.room()?))),
            b"survey" => Ok(Command::Hub(HubCall::Survey(self.survey()?))),
            b"on" => Ok(Command::Use(Call::On(self.link()?))),
            b"off" => Ok(Command::Use(Call::Off(self.link()?))),
            b"is" => Ok(Command::Use(Call::Is(self.link()?))),
            b"target" => Ok(Command::Use(Call::Target(self.question()?))),
            b"source" => Ok(Command::Use(Call::Source(self.question()?))),
            b"count" => self.end().map(|()| Command::Use(Call::Count)),
            b"spare" => self.end().map(|()| Command::Use(Call::Spare)),
            _ => Err(Missing::Command),
        }
    }
}

// The command that a line writes, or why it writes none.
pub fn read_command(line: &[u8]) -> Result<Command, Missing>
    ensures { result ≡ command_of line.now }
{
    let mut words = Words { text: line };
    let name = words.next().ok_or(Missing::Command)?;
    words.command(name)
}
