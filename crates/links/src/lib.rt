// Links of the graph, what a store of them means, and what it answers.
#![tactic(auto)]

mod link;
mod make_refusal;
mod sizes;
mod switch_refusal;
mod traits;

pub use link::{Link, sets_are_determined};
pub use make_refusal::MakeRefusal;
pub use sizes::Sizes;
pub use switch_refusal::SwitchRefusal;
pub use traits::{Links, Store};
