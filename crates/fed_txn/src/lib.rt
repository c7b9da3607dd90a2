//! The bodies of Matrix transactions: what a server sends to another, read, and the reply to it, written.
//!
//! - `transaction`: `TransactionIn`, the parts of a transaction that came in, taken from a value
//! - `reading`: from the bytes of a body to its transaction
//! - `writing`: from a transaction that is sent to its body
//! - `array_text`: the text of an array, written item by item
//! - `verdicts`: `Verdicts`, what a server answers about each event of a transaction
//! - `reply`: from verdicts to the reply body
//! - `reply_reading`: from the body of a reply to its verdicts
//! - `reply_fault`: `ReplyFault`, why bytes are no reply
//! - `fault`: `TxnFault`, why a body is no transaction, and its error texts
//! - `laws`: what holds of all replies
#![tactic(auto)]

mod array_text;
mod fault;
mod laws;
mod reading;
mod reply;
mod reply_fault;
mod reply_reading;
mod transaction;
mod verdicts;
mod writing;

pub use fault::{BodyField, TxnFault};
pub use fed_json::NoMemory;
pub use laws::replies_differ;
pub use reading::{MAX_BODY, read, read_body};
pub use reply::write_reply;
pub use reply_fault::ReplyFault;
pub use reply_reading::read_reply;
pub use transaction::{MAX_EDUS, MAX_PDUS, TransactionIn};
pub use verdicts::Verdicts;
pub use writing::write;
