// The console: lines are read, the libraries called, the answers written.
#![tactic(auto)]

mod answer;
mod commissioning;
mod replying;
mod running;
mod service;
mod serving;
mod session;

pub use answer::{Answer, Refusal};
pub use replying::{Reply, hub_call, reply_alone, reply_with, reply_with_layer};
pub use running::run;
pub use serving::{Plan, plan_for, serve};
