// What lines are served with: no store, a store, or a layer over one.
ghost use Rattle.std.specs.Prelude.{Result};
ghost use Rattle.commands.specs.Commands.{command_of};
ghost use Rattle.commands.specs.declared.command.Command.{Command};
ghost use Rattle.commands.specs.declared.command.Missing.{Missing as NoCommand};
ghost use Rattle.held_store.specs.Layers.{held_in};
ghost use Rattle.held_store.specs.Meaning.{layer_of, set_of};
ghost use Rattle.shell.specs.Answers.{Replied, RepliedAlone, RepliedHeld};
ghost use Rattle.shell.specs.declared.replying.Reply.{Reply as Given};

use crate::answer::Answer;
use crate::commissioning::{Desk, Response};
use crate::replying::{Reply, reply_alone, reply_with, reply_with_layer};
use commands::{Missing, Survey};
use held_store::HeldStore;
use links::Store;

pub trait Service {
    // What a command gives, and what is left.
    ghost replies: { Self → Result Command NoCommand → Given → Self → Type 0 };

    fn reply(&mut self, line: &[u8]) -> Reply
        ensures { replies self.old (command_of line.now) result self.new };

    // The survey of a rule of the desk's hub.
    fn survey(&self, desk: &Desk, wanted: Survey) -> Response;
}

#[derive(Clone, Copy)]
pub struct NoStore;

impl Service for NoStore {
    ghost replies = { λ s c r t. RepliedAlone c r };

    fn reply(&mut self, line: &[u8]) -> Reply {
        reply_alone(line)
    }

    fn survey(&self, _desk: &Desk, _wanted: Survey) -> Response {
        Response::Answer(Answer::Unknown(Missing::Store))
    }
}

// A store with no layer over it.
#[derive(Drop)]
pub struct Plain<S>(pub S);

impl<S: Store> Service for Plain<S> {
    ghost replies = { λ s c r t. Replied (S.Links.set s.0) c r (S.Links.set t.0) };

    fn reply(&mut self, line: &[u8]) -> Reply {
        reply_with(&mut self.0, line)
    }

    fn survey(&self, desk: &Desk, wanted: Survey) -> Response {
        desk.survey(&self.0, wanted)
    }
}

impl<S: Store> Service for HeldStore<S> {
    ghost replies = { λ s c r t. RepliedHeld (set_of S.Links s) (held_in (layer_of S.Links s)) c r (set_of S.Links t) (held_in (layer_of S.Links t)) };

    fn reply(&mut self, line: &[u8]) -> Reply {
        reply_with_layer(self, line)
    }

    fn survey(&self, desk: &Desk, wanted: Survey) -> Response {
        desk.survey(self, wanted)
    }
}
