//! Tests of what a hub is made of, each of one crate by its public names: what no line of `fed_vectors` can say and no clause promises. It has
//! no code of its own.
//!
//! - `wires`: a wire between two threads, and a board (`fed_wires`)
//! - `told`: what clients were told, compared with a journal (`fed_hub_told`)
//! - `journals`: what is offered goes over the wires (`fed_hub_state`)
//! - `serving`: requests off readers, and replies to writers that fail (`fed_hub_serving`)
//! - `rooms`: events that come over a room's wire (`fed_hub_rooms`)
//! - `kept`: what lies under different locks, compared (`fed_hub_kept`)
#![tactic(auto)]

#[cfg(test)]
mod journals;
#[cfg(test)]
mod kept;
#[cfg(test)]
mod rooms;
#[cfg(test)]
mod serving;
#[cfg(test)]
mod told;
#[cfg(test)]
mod wires;
