//! Tests of the library by its public names, of what no line of `fed_vectors` can say: readers and writers that fail, bodies of the
//! greatest size, texts for want of memory. It has no code of its own.
//!
//! - `events`: ids and faults as texts
//! - `transactions`: bodies of the greatest size, replies that are read, and names and faults as texts
//! - `inboxes`: a body that is too large, and the reply for want of memory
//! - `replies`: stores of replies, and want of memory
//! - `streams`: messages off readers that give little at a time, are interrupted, fail or end
//! - `connections`: exchanges whose writer takes nothing or whose reader gives no reply
//! - `requests`: requests on their whole way: signed, written, read and answered; copies, and replies that go out
//! - `servers`: copies of lists and sets of servers
//! - `refusals`: why an EDU is not offered and no server is named, as texts
//! - `rooms`: why no room begins, as texts
//! - `worlds`: worlds by what others see of them, and setups that no world begins with
//! - `runs`: runs over readers and writers that give and take little, fail, or never end
#![tactic(auto)]

#[cfg(test)]
mod connections;
#[cfg(test)]
mod events;
#[cfg(test)]
mod inboxes;
#[cfg(test)]
mod refusals;
#[cfg(test)]
mod replies;
#[cfg(test)]
mod requests;
#[cfg(test)]
mod rooms;
#[cfg(test)]
mod runs;
#[cfg(test)]
mod servers;
#[cfg(test)]
mod streams;
#[cfg(test)]
mod transactions;
#[cfg(test)]
mod worlds;
