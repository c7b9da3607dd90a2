//! The way of a transaction and of its answer from one Matrix server to another, in bytes (Server-Server API, "PUT
//! /_matrix/federation/v1/send/{txnId}"): a transaction goes as a signed request of HTTP/1.1, and its answer as a reply.
//!
//! What the bytes are stands in definitions, which the contracts of senders and of receivers can cite.
//!
//! - `requests`: `request_bytes`, from a transaction to the bytes of its request, and `read_request`, from bytes to their request
//! - `replies`: `status_in`, the status of the reply that bytes begin with, and `read_status`, that which is read of a reply
//! - `front`: the message that bytes begin with
#![tactic(auto)]

mod front;
mod replies;
mod requests;

pub use replies::{read_status, status_in};
pub use requests::{read_request, request_bytes};
