ghost use Rattle.std.specs.Prelude.{◌≡◌, true};
ghost use Rattle.ordered.specs.Items.{items, capacity};
ghost use Rattle.links.specs.Sets.{all_inside};

use links::{Link, Sizes};
use ordered::OrderedList;

mod making;
mod questions;
mod switching;

// The links, in order, in lent memory that has a record for each link the store may hold.
#[derive(Drop)]
pub struct ListStore<'a> {
    list: OrderedList<'a, Link>,
    sizes: Sizes,
    ghost roomy: { capacity list ≡ sizes.limit },
    ghost within: { all_inside sizes.things (items list) ≡ true },
}
