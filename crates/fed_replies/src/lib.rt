//! The replies that a server keeps for the transactions it answered: a transaction that comes again gets the reply of the first time
//! (Matrix, Server-Server API, "Transactions").
//!
//! - `store`: `ReplyStore`, what keeps replies
//! - `list_store`: `ListStore`, which keeps them in memory as they are
//! - `numbered`: the replies to one origin, by transaction
//! - `packed_store`: `PackedStore`, which keeps them in less memory
//! - `places`: where a packed store has the reply to each transaction
//! - `form`: the form in which it keeps a reply: packed, or whole
//! - `pieces`: what packed replies lie in
//! - `plain`: replies of which nothing is escaped, read where they lie
//! - `marks`: what one byte tells of a verdict
//! - `members`: the verdicts about packed events, written one after another
//! - `writing`: replies that are written verdict by verdict
//! - `text_table`: the texts of failed verdicts, each once
//! - `error_text`: the text of an error, and how it stands in a reply
//! - `hash_id`: event ids that are hashes
//! - `symbols`: the symbols of hashes, looked up two by two
//! - `laws`: what holds of all that is kept
#![tactic(auto)]

mod error_text;
mod form;
mod hash_id;
mod laws;
mod list_store;
mod marks;
mod members;
mod numbered;
mod packed_store;
mod pieces;
mod places;
mod plain;
mod store;
mod symbols;
mod text_table;
mod writing;

pub use fed_json::NoMemory;
pub use laws::what_is_kept_stays;
pub use list_store::ListStore;
pub use packed_store::PackedStore;
pub use store::ReplyStore;
