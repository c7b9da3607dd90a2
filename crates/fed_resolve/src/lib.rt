//! What the state of a room is where its branches disagree: state resolution, version 2 (room version 2, "State resolution").
//!
//! - `chain`: auth chains
//! - `checks`: iterative auth checks
//! - `conflict`: what states agree on, and their full auth chains
//! - `difference`: what states disagree on: the full conflicted set
//! - `dispute`: the same of states that are kept by earlier ones
//! - `equality`: whether states are equal
//! - `kept`: what states that are kept by earlier ones resolve to
//! - `laws`: what holds of auth chains and of all resolved states, and `resolve_plainly`, the plain program of these
//! - `levels`: what the auth events of an event say of power levels
//! - `mainline`: mainline ordering
//! - `masks`: auth chains of several groups of events by one walk
//! - `order`: events listed one after another
//! - `places`: sets of places as marks, and as lists
//! - `power`: power events, and the power events of the full conflicted set
//! - `ready`: the same by the set of those that may be listed
//! - `resolution`: the state that several states resolve to
//! - `topological`: reverse topological power ordering
#![tactic(auto)]

mod chain;
mod checks;
mod conflict;
mod difference;
mod dispute;
mod equality;
mod kept;
mod laws;
mod levels;
mod mainline;
mod masks;
mod order;
mod places;
mod power;
mod ready;
mod resolution;
mod topological;

pub use chain::chains;
pub use checks::check_all;
pub use conflict::{agreed, full_chain, unconflicted};
pub use difference::full_conflicted;
pub use kept::{Merged, resolve_kept};
pub use laws::{
    agreed_keys_stay, chain_test_is_exact, entries_come_from_the_states,
    later_events_change_nothing, lists_are_orders, mainlines_are_exact, no_states_are_empty,
    one_state_stays, resolve_plainly, resolved_states_name_stored_events, states_in_any_order,
};
pub use mainline::mainline_order;
pub use places::members;
pub use power::{is_power_event, other_set, power_set};
pub use resolution::resolve;
pub use topological::power_order;
