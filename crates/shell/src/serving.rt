ghost use Rattle.links.specs.Numbers.{Asked};
ghost use Rattle.shell.specs.Answers.{CanMake, Planned, Served};

use crate::answer::Answer;
use bit_store::BitStore;
use commands::{Call, Kind, Wanted};
use links::{MakeRefusal, Sizes, Store};
use list_store::ListStore;

// A store that can be made, with a layer over it that holds changes or without.
#[derive(Clone, Copy)]
pub struct Plan {
    pub held: bool,
    pub kind: Kind,
    pub sizes: Sizes,
}

// The sizes of the wanted store, if they are in range and its memory, where it is told, is enough.
fn sizes_for(wanted: Wanted) -> Result<Sizes, MakeRefusal>
    ensures { Asked wanted.things wanted.limit (CanMake wanted) result }
{
    let limit = wanted.limit as usize;
    let Some(memory) = wanted.memory else {
        return Sizes::ask(wanted.things, limit);
    };
    match wanted.kind {
        Kind::List => ListStore::ask(wanted.things, limit, memory as usize),
        Kind::Bits => BitStore::ask(wanted.things, limit, memory as usize),
    }
}

// The store that is wanted, if it can be made.
pub fn plan_for(wanted: Wanted) -> Result<Plan, MakeRefusal>
    ensures { Planned wanted result }
{
    Ok(Plan {
        held: wanted.held,
        kind: wanted.kind,
        sizes: sizes_for(wanted)?,
    })
}

// Serves a call with the store in hand.
pub fn serve<S: Store>(store: &mut S, call: Call) -> Answer
    ensures { Served (S.Links.set store.old) call result (S.Links.set store.new) }
{
    match call {
        Call::On(link) => store.switch_on(link).into(),
        Call::Off(link) => store.switch_off(link).into(),
        Call::Is(link) => Answer::Test(store.is_on(link)),
        Call::Target(q) => store.next_target(q.node, q.label, q.from).into(),
        Call::Source(q) => store.next_source(q.node, q.label, q.from).into(),
        Call::Count => Answer::Number(store.link_count()),
        Call::Spare => store.spare_thing().into(),
    }
}
