// Records in the order of their keys, in memory that the caller lends.
#![tactic(auto)]

mod keyed;
mod list;
mod refusal;

pub use keyed::{Keyed, lists_are_determined};
pub use list::OrderedList;
pub use refusal::InsertRefusal;
