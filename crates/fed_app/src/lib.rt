//! What the program `fed` does, over any reader and any writer.
//!
//! - `lines`: `inbox_run`, lines of transactions in, lines of replies out
//! - `setup`: `InboxSetup`, whose inbox it is, and `SetupFault`, why texts make none
//! - `words`: the parts of a line
//! - `sim`: `sim_run`, a script in, what its commands answered out
//! - `sim_lines`: `Lines`, what they answered, a line each
//! - `sim_fault`: how a run of a script ends early
//! - `input`: the lines of a reader that may be asked so many times
//! - `fault`: how a run ends early
#![tactic(auto)]

mod fault;
mod input;
mod lines;
mod setup;
mod sim;
mod sim_fault;
mod sim_lines;
mod words;

pub use fault::RunFault;
pub use lines::{MAX_READS, inbox_run};
pub use setup::{InboxSetup, SetupFault};
pub use sim::sim_run;
pub use sim_fault::SimRunFault;
