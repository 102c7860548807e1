// A layer over any store that holds up to sixteen changes back, and is a store itself.
#![tactic(auto)]

mod store;
mod undoing;

pub use store::HeldStore;
pub use undoing::undoing_holds_no_more;
