//! What the threads of a server that serves share beside what `fed_hub_state` has: the inbox with the history of the requests that it answered
//! and the ends that send of the rooms' wires, under one lock; the section that answers a request; and the way of a request from a reader to
//! its reply on a writer.
//!
//! - `naming`: `ServingNaming`, the names by which contracts know the rooms, their wires, and what the server's inbox began with
//! - `kept_inbox`: `KeptInbox`, the inbox, its history and the wires
//! - `kept_point`: `KeptPoint`, a request with its reply and the events that it brought
//! - `inbox_reply`: `InboxReply`, the reply to a request, and the number of its point in the history
//! - `room_wires`: the ends that send of the rooms' wires, and how events go over them
//! - `room_wire`: `EndedWire`, a wire that has ended; `end_place`: `EndPlace`, where
//! - `delivered_request`: `DeliveredRequest`, a request that was read apart from the inbox, with the transaction that it delivers
//! - `judged_request`: `JudgedRequest`, a request that was read and judged apart from the inbox
//! - `bound`: events on their way to their rooms
//! - `answering`: what an inbox answers to a request that was judged
//! - `full_wire`: `FullWire`, a request that was not taken, since a room's wire is full
//! - `sections`: what a thread does while it holds the lock
//! - `serving`: `serve_one`, which reads a request, answers it and writes the reply, and `ServingDesk`, what the threads that do share
//! - `access`: `InboxAccess`, the way to the inbox, as a `LockedInbox` is to a `SharedInbox`
//! - `serve_token`: `ServeToken`, the requests that such a thread answered, each an `AnsweredRequest`; `served`: `Served`, what became of one
//! - `comparing`: whether requests and replies are equal
#![tactic(auto)]

mod access;
mod answering;
mod bound;
mod comparing;
mod delivered_request;
mod end_place;
mod full_wire;
mod inbox_reply;
mod judged_request;
mod kept_inbox;
mod kept_point;
mod naming;
mod room_wire;
mod room_wires;
pub mod sections;
mod serve_token;
mod served;
mod serving;

pub use access::{InboxAccess, LockedInbox, SharedInbox};
pub use delivered_request::DeliveredRequest;
pub use end_place::EndPlace;
pub use full_wire::FullWire;
pub use inbox_reply::InboxReply;
pub use judged_request::JudgedRequest;
pub use kept_inbox::KeptInbox;
pub use kept_point::KeptPoint;
pub use naming::ServingNaming;
pub use room_wire::EndedWire;
pub use serve_token::{AnsweredRequest, ServeToken};
pub use served::Served;
pub use serving::{ServingDesk, serve_one};
