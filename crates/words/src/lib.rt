// Rule words: what one word says, which word may follow, and the faults of a reading.
#![tactic(auto)]

mod faults;
mod items;
mod stages;
mod steps;
mod tables;

pub use faults::{Cause, Layer, RuleFault, WordFault};
pub use items::{Item, Kind, PatternLink, Share, Target, low_byte};
pub use stages::Stage;
pub use steps::State;
