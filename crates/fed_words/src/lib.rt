//! The command line of `fed`: its commands, what their help teaches, and what words ask for. It stands on no crate of servers, so that it is proved
//! beside them.
//!
//! - `asked`: `Asked`, what words ask for
//! - `refused`: `Refused`, why they ask for nothing that is to be done
//! - `reading`: `read`, from words to what they ask for
//! - `command`: the commands and their arguments
//! - `texts`: what their help teaches
#![tactic(auto)]

mod asked;
mod command;
mod reading;
mod refused;
mod texts;

pub use asked::{Asked, InboxWords, Most};
pub use reading::read;
pub use refused::Refused;
