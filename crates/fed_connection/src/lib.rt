//! What one connection carries between two servers: a request of HTTP/1.1 (RFC 9112), and its reply.
//!
//! - `exchanging`: `exchange`, a request to a writer and its reply off a reader, as the two halves of a connection are
//! - `unanswered`: `Unanswered`, why there is no reply
#![tactic(auto)]

mod exchanging;
mod unanswered;

pub use exchanging::exchange;
pub use unanswered::Unanswered;
