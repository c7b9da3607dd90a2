// What the event of a draft names.
ghost use Rattle.std.specs.Prelude.{◌≡◌, ◌∷◌, ◌≤◌, [], take, true, pos, length, not, position, IfOk, OnOk, option_map};
ghost use Rattle.std.specs.List.{list_all, position_or_len};
ghost use Rattle.std.specs.Ordering.{is_lt};
ghost use Rattle.serde_json.specs.Find.{of_integer};
ghost use Rattle.fed_json.specs.Profile.{is_whole};
ghost use Rattle.fed_room_contract.specs.Graph.{is_stored};
ghost use Rattle.fed_room_contract.specs.Room.{extremities_of};
ghost use Rattle.fed_room.specs.Links.{depth_at, tip_cmp, with_tip, by_depth, prev_events_for, next_depth, depth_after, selector_of_draft};
ghost use Rattle.fed_auth.specs.Selection.{selection_of};
ghost use Rattle.fed_room_contract.specs.StateRef.{seen as ref_seen};
ghost use Rattle.fed_room.specs.LinksParts.{links_seen};
ghost use Rattle.fed_room.specs.Parts.{no_links};

use fed_auth::Selector;
use fed_event::{EventId, MAX_PREV_EVENTS, Version};
use fed_json::NoMemory;
use fed_room_contract::{Draft, Graph, StateRef};
use std::alloc::Global;
use std::cmp::Ordering;

// The greatest number of an event: 2^53 - 1.
const MAX_WHOLE: i64 = 9_007_199_254_740_991;

/// What an event has of its room: the version, the ids of the events that it names, and its depth.
#[derive(Drop)]
pub(crate) struct Links {
    pub(crate) version: Version,
    pub(crate) auth_events: Vec<EventId>,
    pub(crate) prev_events: Vec<EventId>,
    pub(crate) depth: i64,
}

impl Links {
    /// Those of an event that names none.
    pub(crate) fn none(alloc: Global, version: Version) -> Links
        ensures { links_seen result ≡ no_links version }
    {
        Links {
            version,
            auth_events: Vec::new(alloc),
            prev_events: Vec::new(alloc),
            depth: 1,
        }
    }
}

/// The prev events of the next event that the own server makes: the forward extremities, at most `MAX_PREV_EVENTS`, those of the
/// greatest depth first and, where two have the same depth, that of the smaller id.
#[tactic(auto, unfolding(crate::specs::Links::prev_events_for))]
pub(crate) fn prev_events(
    alloc: Global,
    graph: &Graph,
    extremities: &[EventId],
) -> Result<Vec<EventId>, NoMemory>
    requires { extremities.now ≡ extremities_of graph.now.stored }
    ensures { IfOk result (λ ids. ids.items ≡ prev_events_for graph.now.stored) }
{
    deepest(alloc, graph, extremities)
}

/// The depth of an event of these prev events, which stand in the order of their depth: one more than the greatest, and at most 2^53 - 1;
/// 1 without.
pub(crate) fn depth_after(graph: &Graph, prev_events: &[EventId]) -> i64
    ensures depth { result ≡ depth_after graph.now.stored prev_events.now }
    ensures whole { is_whole (of_integer result) ≡ true }
{
    match prev_events.first() {
        Some(deepest) => next_depth(depth_of(graph, deepest)),
        None => 1,
    }
}

/// The ids of the auth events that the event of a draft has where this state is before it.
pub(crate) fn selection(
    alloc: Global,
    draft: &Draft,
    before: StateRef<'_>,
) -> Result<Vec<EventId>, NoMemory>
    ensures { IfOk result (λ ids. ids.items ≡ selection_of (selector_of_draft draft.now) (ref_seen before.entry)) }
{
    let selector = Selector::new(
        draft.kind.as_str(),
        draft.sender.as_str(),
        draft.state_key.as_deref(),
        draft.content.root(),
    );
    selector.select_in(alloc, before)
}

/// One more, in the range of an event's numbers.
pub(crate) fn next_depth(depth: i64) -> i64
    ensures depth { result ≡ next_depth depth }
    ensures whole { is_whole (of_integer result) ≡ true }
{
    depth.saturating_add(1).min(MAX_WHOLE).max(-MAX_WHOLE)
}

// The first of some ids in the order of their depth, at most `MAX_PREV_EVENTS`.
fn deepest(alloc: Global, graph: &Graph, ids: &[EventId]) -> Result<Vec<EventId>, NoMemory>
    ensures { IfOk result (λ first. first.items ≡ take 20 (by_depth graph.now.stored ids.now)) }
{
    let mut sorted = Vec::new(alloc);
    for place in (0..ids.len()).rev() {
        add(graph, ids[place].copy(alloc)?, &mut sorted)?;
    }
    Ok(sorted)
}

// Puts one more id among these, where it stands in this order, and leaves the first of them.
fn add(graph: &Graph, id: EventId, sorted: &mut Vec<EventId>) -> Result<(), NoMemory>
    ensures { OnOk result (sorted.new.items ≡ take 20 (with_tip graph.now.stored id sorted.old.items)) }
{
    let place = place_for(graph, &id, sorted);
    sorted.insert(place, id)?;
    sorted.truncate(MAX_PREV_EVENTS);
    Ok(())
}

// How many of these ids come before another one in this order.
fn place_for(graph: &Graph, id: &EventId, sorted: &[EventId]) -> usize
    ensures place { result ≡ position_or_len (λ other. not (is_lt (tip_cmp graph.now.stored other id.now))) sorted.now }
    ensures within { result ≤ length sorted.now }
{
    match first_behind(graph, id, sorted) {
        Some(place) => place,
        None => sorted.len(),
    }
}

// The place of the first of these ids that does not come before another one.
fn first_behind(graph: &Graph, id: &EventId, sorted: &[EventId]) -> Option<usize>
    ensures { result ≡ position (λ other. not (is_lt (tip_cmp graph.now.stored other id.now))) sorted.now }
{
    sorted.iter().position(|other| !is_before(graph, other, id))
}

// Whether one id comes before another: that of greater depth, and then the smaller one.
fn is_before(graph: &Graph, one: &EventId, other: &EventId) -> bool
    ensures { result ≡ is_lt (tip_cmp graph.now.stored one.now other.now) }
{
    match depth_of(graph, other).cmp(&depth_of(graph, one)) {
        Ordering::Less => true,
        Ordering::Equal => one < other,
        Ordering::Greater => false,
    }
}

// The depth of the event of an id.
fn depth_of(graph: &Graph, id: &EventId) -> i64
    ensures { result ≡ depth_at graph.now.stored id.now }
{
    match graph.get(id.as_str()) {
        Some(stored) => stored.event.event().depth(),
        None => 0,
    }
}
