// The hub, as far as it is commissioned: its plate, its limits and its rule set.
#![tactic(auto)]

mod commissioning;
mod refusals;

pub use commissioning::{Accepted, Commissioning, Terms};
pub use refusals::{HubRefusal, ReadRefusal, WriteRefusal};
