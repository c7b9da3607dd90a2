//! One message of HTTP/1.1 (RFC 9112) off a reader, as a connection brings it: read in pieces, and no further than the piece in which it is
//! whole.
//!
//! - `unread`: `Unread`, why no message was read
//! - `reading`: `read_request` and `read_reply`, from a reader to its next message, and `MAX_READS`, how often a reader is asked for one
#![tactic(auto)]

mod reading;
mod unread;

pub use reading::{MAX_READS, read_reply, read_request};
pub use unread::Unread;
