// Rule sets: reading them, and each part of them as a run of the given words.
#![tactic(auto)]

mod anchors;
mod bans;
mod checking;
mod faults;
mod parts;
mod reading;
mod runs;
mod scanning;
mod sets;

pub use anchors::is_anchor;
pub use bans::BanRun;
pub use faults::SetFault;
pub use parts::{Part, RuleRun};
pub use reading::read;
pub use runs::Run;
pub use sets::RuleSet;
