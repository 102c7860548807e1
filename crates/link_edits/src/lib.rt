// Sets of links after an edit: what they answer, without carrying the edit out, and its carrying out.
#![tactic(auto)]

mod adjacency;
mod carrying;
mod edit;
mod edited;

pub use adjacency::{Adjacency, Direction};
pub use carrying::carry_out;
pub use edit::{Edit, contains, is_same};
pub use edited::Edited;
