//! A hub over TCP sockets and the clock of the system. What goes over a connection is said by `fed_connection` and by the hub; of the sockets
//! themselves no contract says anything.
//!
//! - `connector`: `Connector`, what opens connections
//! - `deadline`: `Deadline`, a moment by which all must be done, and `PATIENCE`, how many seconds there are where an embedder has no wish
//! - `watch`: `Watch`, what a deadline asks for the moment; a clock of the system is one
//! - `socket`, `timed`: `Socket`, as a connection over TCP is one, and `Timed`, a reader and a writer over it that know their deadline
//! - `carrier`: `TcpCarrier`, which brings requests over a connection each
//! - `gate`: `ClockGate`, a clock that never goes back, and short pauses
//! - `door`: `Door`, where a server serves until it is closed
//! - `serving`: `serve`, one request after another off the connections that come to a door
#![tactic(auto)]

mod carrier;
mod connector;
mod deadline;
mod door;
mod gate;
mod serving;
mod socket;
#[cfg(test)]
mod tests;
mod timed;
mod watch;

pub use carrier::TcpCarrier;
pub use connector::Connector;
pub use deadline::{Deadline, PATIENCE};
pub use door::Door;
pub use gate::ClockGate;
pub use serving::serve;
pub use socket::Socket;
pub use timed::Timed;
pub use watch::Watch;
