ghost use Rattle.std.specs.Prelude.{◌≡◌, ◌≤◌, [], length};
ghost use Rattle.ordered.specs.Items.{items};
ghost use Rattle.links.specs.Numbers.{Asked};
ghost use Rattle.links.specs.Sets.{InRange};

use super::ListStore;
use links::{Link, MakeRefusal, Sizes};
use ordered::OrderedList;

impl<'a> ListStore<'a> {
    // Asks for a store of these sizes over memory of so many records.
    // Stays: beside the call of `Sizes::ask` the two stores share a comparison, and each compares with its own length.
    pub fn ask(things: u32, limit: usize, slots: usize) -> Result<Sizes, MakeRefusal>
        ensures { Asked things limit (InRange things limit × (limit ≤ slots)) result }
    {
        let sizes = Sizes::ask(things, limit)?;
        if slots < limit {
            return Err(MakeRefusal::OutOfRange);
        }
        Ok(sizes)
    }

    // An empty store, whatever the memory held.
    pub fn new(sizes: Sizes, memory: &'a mut [Link]) -> ListStore<'a>
        requires { sizes.limit ≤ length memory.old }
        ensures empty { items result.list ≡ [] }
        ensures things { result.sizes.things ≡ sizes.things }
        ensures limit { result.sizes.limit ≡ sizes.limit }
    {
        let slots = &mut memory[..sizes.limit()];
        ListStore {
            list: OrderedList::new(slots),
            sizes,
        }
    }
}
