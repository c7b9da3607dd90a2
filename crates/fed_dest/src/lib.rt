//! Servers that a server sends to: their names, the list of them, and which of them are joined to a room.
//!
//! - `server_name`: `ServerName`, the name of a server
//! - `joined`: the listed servers that are joined in a room
//! - `list`: `List`, the servers that a server sends to and takes from
//! - `server_index`: `ServerIndex`, a place in the list
//! - `server_set`: `ServerSet`, some of the listed servers
//! - `laws`: what holds of the servers that an event is sent to
#![tactic(auto)]

mod joined;
mod laws;
mod list;
mod server_index;
mod server_name;
mod server_set;

pub use joined::{destinations, joined_servers, joins_server};
pub use laws::{destinations_stay, what_destinations_are};
pub use list::{List, ListFault};
pub use server_index::{MAX_SERVERS, ServerIndex};
pub use server_name::{NameFault, ServerName};
pub use server_set::ServerSet;
