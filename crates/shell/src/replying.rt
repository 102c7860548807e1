ghost use Rattle.std.specs.Prelude.{◌≡◌, None};
ghost use Rattle.shell.specs.Answers.{Replied, RepliedAlone, RepliedHeld, RepliedWanted, hub_call_of};
ghost use Rattle.held_store.specs.Layers.{held_in};
ghost use Rattle.held_store.specs.Meaning.{layer_of, set_of};
ghost use Rattle.commands.specs.Commands.{command_of};

use crate::answer::Answer;
use crate::serving::{Plan, plan_for, serve};
use commands::{Command, HubCall, Missing, Wanted, read_command};
use held_store::HeldStore;
use links::Store;

// What a line gives: an answer, and the store to be made, if it asked for one that can be.
#[derive(Clone, Copy)]
pub struct Reply {
    pub answer: Answer,
    pub plan: Option<Plan>,
}

fn answered(answer: Answer) -> Reply
    ensures answer { result.answer ≡ answer }
    ensures plan { result.plan ≡ None }
{
    Reply { answer, plan: None }
}

fn reply_to_wanted(wanted: Wanted) -> Reply
    ensures { RepliedWanted wanted result.answer result.plan }
{
    match plan_for(wanted) {
        Ok(plan) => Reply {
            answer: Answer::Taken,
            plan: Some(plan),
        },
        Err(refusal) => answered(Answer::Refused(refusal.into())),
    }
}

// What a line asks of the hub, if it does.
pub fn hub_call(line: &[u8]) -> Option<HubCall>
    ensures { result ≡ hub_call_of (command_of line.now) }
{
    match read_command(line) {
        Ok(Command::Hub(call)) => Some(call),
        _ => None,
    }
}

// The reply to a line while there is no store and no hub.
pub fn reply_alone(line: &[u8]) -> Reply
    ensures { RepliedAlone (command_of line.now) result }
{
    match read_command(line) {
        Ok(Command::Make(wanted)) => reply_to_wanted(wanted),
        Ok(Command::Use(_)) => answered(Answer::Unknown(Missing::Store)),
        Ok(Command::Hub(_)) => answered(Answer::Unknown(Missing::Hub)),
        Ok(Command::Settle) => answered(Answer::Unknown(Missing::Store)),
        Err(missing) => answered(Answer::Unknown(missing)),
    }
}

// The reply to a line with a store in hand that has no layer, and no hub.
pub fn reply_with<S: Store>(store: &mut S, line: &[u8]) -> Reply
    ensures { Replied (S.Links.set store.old) (command_of line.now) result (S.Links.set store.new) }
{
    match read_command(line) {
        Ok(Command::Make(wanted)) => reply_to_wanted(wanted),
        Ok(Command::Use(call)) => answered(serve(store, call)),
        Ok(Command::Hub(_)) => answered(Answer::Unknown(Missing::Hub)),
        Ok(Command::Settle) => answered(Answer::Unknown(Missing::Layer)),
        Err(missing) => answered(Answer::Unknown(missing)),
    }
}

// The reply to a line with a layer in hand that holds changes.
pub fn reply_with_layer<S: Store>(layer: &mut HeldStore<S>, line: &[u8]) -> Reply
    ensures { RepliedHeld (set_of S.Links layer.old) (held_in (layer_of S.Links layer.old)) (command_of line.now) result (set_of S.Links layer.new) (held_in (layer_of S.Links layer.new)) }
{
    match read_command(line) {
        Ok(Command::Make(wanted)) => reply_to_wanted(wanted),
        Ok(Command::Use(call)) => answered(serve(layer, call)),
        Ok(Command::Settle) => answered(Answer::Number(layer.settle())),
        Ok(Command::Hub(_)) => answered(Answer::Unknown(Missing::Hub)),
        Err(missing) => answered(Answer::Unknown(missing)),
    }
}
