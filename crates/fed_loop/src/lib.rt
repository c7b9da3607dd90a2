//! Two servers of one process, which send and serve over sockets of the loopback interface: what the program `fed` does for `fed loop`.
//!
//! - `load`: `Load`, how many events are sent by how many clients, and `Counts`, what comes of it
//! - `running`: `loop_run`, both servers at once
//! - `sending`: the server that sends, with what its threads do; `taking`: the same of the other one
//! - `setups`: what each of the two is made of
//! - `faults`: `LoopFault`, and the first one that a thread met
//! - `counting`: what is counted at the end
//! - `course`: what all threads know
#![tactic(auto)]

mod counting;
mod course;
mod faults;
mod load;
mod running;
mod sending;
mod setups;
mod taking;

pub use faults::LoopFault;
pub use load::{Counts, Load, MAX_CLIENTS, MAX_EVENTS};
pub use running::loop_run;
