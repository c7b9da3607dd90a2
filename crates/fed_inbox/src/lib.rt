//! What a server answers to transactions that other servers send it, and what it takes of them (Matrix, Server-Server API,
//! "Transactions").
//!
//! - `inbox`: `Inbox`, which answers a request, and keeps what it took and, in a store, the replies
//! - `receiver`: `Receiver`, which reads and judges a request apart from the inbox
//! - `delivery`: `Delivery`, what is read of a request, and `Judged`, what it comes to
//! - `log`: what was taken from one origin
//! - `outcome`: what taking a transaction comes to: the texts of its elements, the events for the rooms and its reply
//! - `received`, `verdict`: the verdicts on its events, each with its fault or handed on
//! - `text_list`: texts that are kept in one piece
//! - `taken`: `Taken`, the texts taken from an origin, one after another
//! - `rooms`: the rooms that the server knows
//! - `incoming`: what a whole request says before its body is read
//! - `vouching`: who tells whether a request is signed
//! - `send_path`: the transaction id in the target of a request
//! - `laws`: what holds of all inboxes, all lists of requests and all histories of whole requests
//! - `refusal`: `Refusal`, the table of the error replies
#![tactic(auto)]

mod delivery;
mod inbox;
mod incoming;
mod laws;
mod log;
mod outcome;
mod received;
mod receiver;
mod refusal;
mod rooms;
mod send_path;
mod taken;
mod text_list;
mod verdict;
mod vouching;

pub use delivery::{Delivery, Judged};
pub use fed_http::Reply;
pub use inbox::Inbox;
pub use laws::{
    a_200_is_kept, histories_join, histories_keep_replies, histories_only_take, kept_replies_stay,
    one_reading, only_a_first_200_changes, only_a_first_whole_200_changes, origins_are_apart,
    repeats_get_the_kept_reply, signed_requests_pass, taken_grows, the_first_of_an_id_decides,
    what_a_new_inbox_knows, what_a_receiver_serves, what_histories_bring,
    what_is_kept_was_answered, what_one_more_request_adds, what_the_queues_get, what_the_rooms_get,
    whole_origins_are_apart, whole_repeats_get_the_kept_reply,
};
pub use receiver::Receiver;
pub use refusal::Refusal;
pub use send_path::txn_of;
pub use taken::Taken;
