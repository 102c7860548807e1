// A store that keeps one bit for each possible link.
#![tactic(auto)]

mod bits;
mod store;

pub use store::BitStore;
