//! Signing keys: what signs as a server and checks the signatures of all servers, and two stand-ins for it that give no security.
//!
//! - `keys`: `Keys`, what signs and checks
//! - `stand_in`: `StandIn`, signatures that anyone can make
//! - `trusting`: `Trusting`, keys under which every signature checks
#![tactic(auto)]

mod keys;
mod stand_in;
mod trusting;

pub use keys::Keys;
pub use stand_in::{StandIn, stand_ins_agree};
pub use trusting::Trusting;
