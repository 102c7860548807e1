// The command that a line writes.
#![tactic(auto)]

mod command;
mod reading;
mod words;

pub use command::{Call, Command, HubCall, Kind, Missing, Question, Survey, Wanted, WantedHub};
pub use reading::read_command;
pub use words::{
    Class, Words, is_passed, parse_link, parse_number, parse_word, run_len, run_len_by,
};
