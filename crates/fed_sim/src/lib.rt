//! A world of servers that send each other events of rooms (Matrix, Server-Server API, "Transactions"), in which what is sent may be lost,
//! come late or come again. All that goes from one server to another goes as the bytes of HTTP messages.
//!
//! - `setup`: `Setup`, what a world begins with
//! - `setup_check`: whether a world can begin so
//! - `step`, `outcome`: `Step` and `Outcome`, the steps of a world and what they answer
//! - `way`: `Way`, the way of parcels from a journal to one destination
//! - `hosted`: `Hosted`, a room at a server, and the events in front of it
//! - `server`: `Server`, what a server keeps
//! - `entering`: what is offered gets into a journal, and on its way
//! - `offering`: what a server sends
//! - `taking`: what a server takes
//! - `applying`: what is taken for a room gets into it
//! - `ways`: what a server does on the way to one destination
//! - `packet`: `Packet`, what is on its way
//! - `world`: `World`
//! - `seen`: what others see of it
//! - `making`: its steps
//! - `rounds`: rounds in which nothing is lost
//! - `starting`: the rooms as they begin
//! - `running`: `run`, a world after a list of steps, and `run_on`, which tells a `Listener` of each
//! - `laws`: what holds of every run
//! - `script`: `read_script`, the steps that a text names
#![tactic(auto)]

mod applying;
mod entering;
mod hosted;
mod laws;
mod making;
mod offering;
mod outcome;
mod packet;
mod rounds;
mod running;
mod script;
mod seen;
mod server;
mod setup;
mod setup_check;
mod starting;
mod step;
mod taking;
mod way;
mod ways;
mod world;

pub use hosted::Hosted;
pub use laws::{calm_delivers, runs_deliver, scripts_are_told_apart, worlds_hold_together};
pub use outcome::{Collected, EduRefusal, Outcome, SendRefusal};
pub use packet::Packet;
pub use rounds::calm;
pub use running::{Listener, begin, run, run_on};
pub use script::{ScriptError, ScriptFault, read_script};
pub use setup::{RoomSetup, Setup, SimFault};
pub use step::Step;
pub use world::{MAX_MOMENT, World};
