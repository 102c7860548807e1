// A store that keeps its links as an ordered list.
#![tactic(auto)]

mod store;

pub use store::ListStore;
