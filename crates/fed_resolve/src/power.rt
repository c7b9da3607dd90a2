// Power events.
ghost use Rattle.std.specs.Prelude.{◌≡◌, ◌&&◌, List, IfOk, length};
ghost use Rattle.fed_room_contract.specs.declared.graph.Stored.{Stored};
ghost use Rattle.fed_room_contract.specs.State.{StateMap};
ghost use Rattle.fed_resolve.specs.Marks.{AreMarks};
ghost use Rattle.fed_resolve.specs.ChainParts.{is_marked};
ghost use Rattle.fed_resolve.specs.Conflict.{is_full_conflicted};
ghost use Rattle.fed_resolve.specs.PowerOrder.{is_power_event, is_power_place, is_removal, is_rule_event, removes};
ghost use Rattle.fed_resolve.specs.Resolution.{is_power, is_other};

use crate::chain::chains;
use crate::places::{add_marks, keep_marks, members, remove_marks};
use fed_auth::Membership;
use fed_event::Pdu;
use fed_json::NoMemory;
use fed_room_contract::Graph;
use std::alloc::Global;

/// Whether an event is a power event (room version 2, "State resolution", "Definitions"): a state event of the power levels or the join
/// rules, or a member event that makes another user than its sender leave or bans that user.
pub fn is_power_event(event: &Pdu) -> bool
    ensures { result ≡ is_power_event event.now }
{
    is_rule_event(event) || is_removal(event)
}

/// The power events of a full conflicted set, and what of the set is in their auth chains (room version 2, "State resolution",
/// "Algorithm", step 1), as a mark for each place of the graph. The auth chains are walked once, all together.
///
/// # Errors
///
/// `NoMemory`.
pub fn power_set(alloc: Global, graph: &Graph, conflicted: &[bool]) -> Result<Vec<bool>, NoMemory>
    requires { length conflicted.now ≡ length graph.now.stored }
    ensures long { IfOk result (λ marks. length marks.items ≡ length graph.now.stored) }
    ensures marks { IfOk result (λ marks. (states : List StateMap) → AreMarks (length graph.now.stored) (is_full_conflicted graph.now.stored states) conflicted.now → AreMarks (length graph.now.stored) (is_power graph.now.stored states) marks.items) }
{
    let power = power_events(alloc, graph, conflicted)?;
    let places = members(alloc, &power)?;
    let mut marks = chains(alloc, graph, &places)?;
    add_marks(&mut marks, &power);
    keep_marks(&mut marks, conflicted);
    Ok(marks)
}

/// What of a full conflicted set is not in its `power_set` (room version 2, "State resolution", "Algorithm", step 3), as a mark for each
/// place of the graph. It takes no memory.
pub fn other_set(mut conflicted: Vec<bool>, power: &[bool]) -> Vec<bool>
    requires { length conflicted.items ≡ length power.now }
    ensures long { length result.items ≡ length power.now }
    ensures marks { (events : List Stored) (states : List StateMap) → AreMarks (length events) (is_full_conflicted events states) conflicted.items → AreMarks (length events) (is_power events states) power.now → AreMarks (length events) (is_other events states) result.items }
{
    remove_marks(&mut conflicted, power);
    conflicted
}

// The power events of a set.
fn power_events(alloc: Global, graph: &Graph, set: &[bool]) -> Result<Vec<bool>, NoMemory>
    requires { length set.now ≡ length graph.now.stored }
    ensures { IfOk result (λ marks. AreMarks (length graph.now.stored) (λ place. is_marked set.now place && is_power_place graph.now.stored place) marks.items) }
{
    let mut marks = Vec::new(alloc);
    for (place, stored) in graph.events().iter().enumerate() {
        marks.push(set[place] && is_power_event(stored.event.event()))?;
    }
    Ok(marks)
}

// Whether an event is a state event of the power levels or the join rules.
fn is_rule_event(event: &Pdu) -> bool
    ensures { result ≡ is_rule_event event.now }
{
    event.state_key().is_some()
        && matches!(event.kind(), "m.room.power_levels" | "m.room.join_rules")
}

// Whether an event is a member event by which a user takes another one's membership away.
fn is_removal(event: &Pdu) -> bool
    ensures { result ≡ is_removal event.now }
{
    let Some(user) = event.state_key() else {
        return false;
    };
    event.kind() == "m.room.member"
        && removes(Membership::of_content(event.content()))
        && user != event.sender()
}

fn removes(membership: Membership) -> bool
    ensures { result ≡ removes membership }
{
    matches!(membership, Membership::Leave | Membership::Ban)
}
