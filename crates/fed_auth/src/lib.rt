//! Which events a room allows: the authorization rules of room version 10.
//!
//! - `rules`: whether a room allows an event
//! - `selector`: the auth events that an event has
//! - `auth_events`: what rule 2 makes of the auth events of an event
//! - `laws`: what holds of all selections and auth states
//! - `level`: `Level`, a power level
//! - `levels`: power levels, as the state of a room gives them
//! - `membership`: what a member event makes of a user
//! - `join_rule`: who may join
//! - `create_rules`: what rule 1 makes of a create event
//! - `member_rules`: what rule 4 makes of a member event, by its membership
//! - `power_rules`: what rule 9 makes of a power levels event
//! - `level_change`: what a power levels event may change
//! - `state_view`: what the state of a room says
//! - `event_rules`: conditions on an event alone
//! - `version`: which room versions are known
#![tactic(auto)]

mod auth_events;
mod create_rules;
mod event_rules;
mod join_rule;
mod laws;
mod level;
mod level_change;
mod levels;
mod member_rules;
mod membership;
mod power_rules;
mod rules;
mod selector;
mod state_view;
mod version;

pub use auth_events::{AuthEvents, auth_state, lay_over, stands_at};
pub use fed_event::authorising_user;
pub use join_rule::JoinRule;
pub use laws::{selections_pass, the_selection_decides, what_an_auth_state_has, what_is_selected};
pub use level::Level;
pub use levels::Levels;
pub use membership::Membership;
pub use rules::{allowed, allowed_by, allowed_in};
pub use selector::{Key, Selector, selection};
pub use state_view::creator;
pub use version::is_known_version;
