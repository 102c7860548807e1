// The hub that the console commissions, and the calls that go to it.
ghost use Rattle.shell.specs.Answers.{Commissioned};
ghost use Rattle.shell.specs.Texts.{response_text};

use crate::answer::Answer;
use crate::service::Service;
use commands::{HubCall, Missing, Survey, WantedHub, Words, parse_word};
use hub::{Commissioning, HubRefusal};
use links::Links;
use matching::survey;
use std::alloc::{AllocError, Global};
use std::fmt;

// The room of a buffer where the line tells none.
const ROOM: u32 = 4096;

// A rule set has no more words, so a longer buffer is used as one of this length.
const MOST_WORDS: u32 = 1024;

// The hub, and the words that were read last, whose memory serves the next ones too.
#[derive(Drop)]
pub struct Desk {
    heap: Global,
    hub: Option<Commissioning>,
    words: Vec<u32>,
}

// What a call to the hub gives: an answer, or words that are taken.
#[derive(Drop)]
pub enum Response {
    Answer(Answer),
    Words(Vec<u32>),
}

impl fmt::Display for Response {
    ghost output = { response_text };

    fn fmt<W: fmt::Write>(&self, f: &mut fmt::Formatter<W>) -> fmt::Result {
        match self {
            Response::Answer(answer) => write!(f, "{answer}"),
            Response::Words(words) => {
                f.write_str("taken")?;
                for word in words {
                    write!(f, " {word:08X}")?;
                }
                Ok(())
            }
        }
    }
}

fn commission(heap: Global, wanted: WantedHub) -> Result<Commissioning, HubRefusal>
    ensures { Commissioned wanted result }
{
    let terms = Commissioning::ask(wanted.plate, wanted.life, wanted.rows)?;
    Ok(Commissioning::new(heap, terms))
}

// The words that a line writes behind its first, in place of those in the buffer; none where it writes something else.
fn words_of<'a>(line: &[u8], words: &'a mut Vec<u32>) -> Result<Option<&'a [u32]>, AllocError> {
    words.clear();
    for text in (Words { text: line }).skip(1) {
        let Some(word) = parse_word(text) else {
            return Ok(None);
        };
        words.push(word)?;
    }
    Ok(Some(words.as_slice()))
}

impl Desk {
    pub fn new(heap: Global) -> Desk {
        Desk {
            heap,
            hub: None,
            words: Vec::new(heap),
        }
    }

    // A hub that is refused leaves the one before.
    fn commission(&mut self, wanted: WantedHub) -> Answer {
        match commission(self.heap, wanted) {
            Ok(hub) => {
                self.hub = Some(hub);
                Answer::Taken
            }
            Err(refusal) => Answer::Refused(refusal.into()),
        }
    }

    fn read_rules(&mut self, line: &[u8]) -> Result<Answer, AllocError> {
        let Some(hub) = &mut self.hub else {
            return Ok(Answer::Unknown(Missing::Hub));
        };
        let Some(words) = words_of(line, &mut self.words)? else {
            return Ok(Answer::Unknown(Missing::Word));
        };
        Ok(hub.read_rules(words).into())
    }

    fn write_rules(&self, room: u32) -> Result<Response, AllocError> {
        let Some(hub) = &self.hub else {
            return Ok(Response::Answer(Answer::Unknown(Missing::Hub)));
        };
        let mut out = vec![in self.heap; 0u32; room.min(MOST_WORDS) as usize]?;
        match hub.write_rules(out.as_mut_slice()) {
            Ok(count) => {
                out.truncate(count);
                Ok(Response::Words(out))
            }
            Err(refusal) => Ok(Response::Answer(Answer::Refused(refusal.into()))),
        }
    }

    // Surveys a rule of the set that was read last.
    pub fn survey<L: Links>(&self, graph: &L, wanted: Survey) -> Response {
        let Some(hub) = &self.hub else {
            return Response::Answer(Answer::Unknown(Missing::Hub));
        };
        let room = wanted.room.unwrap_or(ROOM) as usize;
        let Ok(mut out) = vec![in self.heap; 0u32; room] else {
            return Response::Answer(Answer::NoMemory);
        };
        match survey(graph, hub.rules(), wanted.rule as usize, out.as_mut_slice()) {
            Ok(count) => {
                out.truncate(count);
                Response::Words(out)
            }
            Err(refusal) => Response::Answer(Answer::Refused(refusal.into())),
        }
    }

    pub fn serve<S: Service>(
        &mut self,
        service: &S,
        call: HubCall,
        line: &[u8],
    ) -> Result<Response, AllocError> {
        match call {
            HubCall::Commission(wanted) => Ok(Response::Answer(self.commission(wanted))),
            HubCall::Rules => Ok(Response::Answer(self.read_rules(line)?)),
            HubCall::Write(room) => self.write_rules(room),
            HubCall::Survey(wanted) => Ok(service.survey(self, wanted)),
        }
    }
}
