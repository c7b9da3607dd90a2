//! The functions of this repository that a program in C can call, each over slices of bytes and numbers.
//!
//! Every function has one form: what it reads comes as slices, what it makes goes into a buffer of the caller's, how many bytes that takes
//! goes where `needed` says, and what it returns is the number of a `Status`: `Done`, `Memory` where memory ran out, `BufferTooSmall` of a
//! function that has a buffer, and those that its comment names. A list comes, and is given, as the JSON text of an array. A function whose
//! answer depends on the version of the room takes its number first. Nothing is kept between calls.
//!
//! - `status`: `Status`, how a call ends, and its number
//! - `version`: the number of the interface
//! - `output`: from an answer to the caller's buffer
//! - `values`: from bytes to a JSON value
//! - `room_version`: the versions of rooms, by their numbers
//! - `texts`: texts made of a value: the canonical one, the redaction, the signed one, the event id and the content hash
//! - `several`: ids and content hashes of several events
//! - `events`: the tests of an event
//! - `requests`: the bytes that are signed for a request
//! - `transactions`: the form of a transaction's body
//! - `replies`: the body of the reply to a transaction
//! - `selection`: the keys of the auth events that an event has
//! - `x_matrix`: what the Authorization field of a request says
//! - `x_matrix_text`: that field, written
//! - `ids`: the ids of events as an array gives them
//! - `history`, `states`: the events of a room, and states of it, as arrays give them
//! - `signers`: signatures that the caller has checked
//! - `state_events`, `allowed`: the events of a state as an array gives them, and whether a room allows an event by them
//! - `stored_events`, `rule_two`, `auth_events`: events with verdicts as an array gives them, rule 2 on auth events, and whether these allow an event
//! - `destinations`: the servers that an event goes to
//! - `resolution`: what several states of a room resolve to
#![tactic(auto)]

mod allowed;
mod auth_events;
mod destinations;
mod events;
mod history;
mod ids;
mod output;
mod replies;
mod requests;
mod resolution;
mod room_version;
mod rule_two;
mod selection;
mod several;
mod signers;
mod state_events;
mod states;
mod status;
mod stored_events;
mod texts;
mod transactions;
mod values;
mod version;
mod x_matrix;
mod x_matrix_text;
