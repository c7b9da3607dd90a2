// The events of a room, as every room keeps them.
ghost use Rattle.std.specs.Prelude.{◌≡◌, ◌<◌, ◌≤◌, ◌++◌, ◌∷◌, [], List, ℕ, not, filter, map, length, Option, vec_len, vec_capacity, position, if◌then◌else◌};
ghost use Rattle.fed_room_contract.specs.Graph.{is_ready};
ghost use Rattle.std.specs.List.{list_any};
ghost use Rattle.std.specs.Str.{bytes_eq};
ghost use Rattle.fed_event.specs.Checked.{CheckedEvent};
ghost use Rattle.fed_event.specs.Fields.{prev_events_of};
ghost use Rattle.fed_room_contract.specs.Room.{without, is_accepted, is_of_id, is_waiting, names};

use crate::arrival::Arrival;
use crate::graph::{Graph, Stored};
use crate::lacks::{first_none, lack_of, renew, tag_of_id};
use crate::receipt::Receipt;
use crate::verdict::Verdict;
use fed_event::{Checked, EventId, Pdu, Version};
use fed_json::NoMemory;
use std::alloc::Global;
use std::marker::Model;

/// How many events may wait.
pub const MOST_WAITING: usize = 1000;

/// The events that a room has stored, those that wait for events that they name, how many were dropped, and the forward extremities
/// (Server-Server API, "PDUs"). What keeps a room has one, and gives the verdicts.
///
/// Contracts see it as a room, and beside it the id of the event for which `reserve` has made room.
#[derive(Drop)]
pub struct EventStore {
    graph: Graph,
    waiting: Vec<Checked>,
    // For each event that waits the tag of the first that it names and that is not stored, or `None` where it is ready.
    lacks: Vec<Option<usize>>,
    dropped: u64,
    extremities: Vec<EventId>,
}

impl Model for EventStore {
    ghost use Rattle.fed_room_contract.specs.Store.{StoreState, store_code};
    ghost use Rattle.fed_room_contract.specs.StoreParts.{store_of, IsStore};

    ghost Value = { StoreState };

    ghost coded = { store_code };

    ghost view = { store_of };

    ghost invariant = { IsStore };
}

impl EventStore {
    ghost use Rattle.std.specs.Prelude.{true, false, None, Some, IfOk, IfErr, IfSome, IsOk, OnOk, OnErr, MatchOption, slice_get, option_map};
    ghost use Rattle.fed_room_contract.specs.declared.receipt.Receipt.TheVariants as receipt;
    ghost use Rattle.fed_room_contract.specs.Graph.{IsGraph, is_stored, stored_at};
    ghost use Rattle.fed_room_contract.specs.Room.{Rules, event_id, is_known, receipt_of, first_ready, empty_room, extremities_of, version_of};
    ghost use Rattle.fed_room_contract.specs.Store.{with_room_for, after_store};
    ghost use Rattle.fed_room_contract.specs.Arrival.{IsArrival, IsFirstReady};

    /// A store in which nothing is stored and nothing waits.
    pub fn new(alloc: Global) -> EventStore
        ensures { result ≡ record { room = empty_room; reserved = None } }
    {
        EventStore {
            graph: Graph::new(alloc),
            waiting: Vec::new(alloc),
            lacks: Vec::new(alloc),
            dropped: 0,
            extremities: Vec::new(alloc),
        }
    }

    /// The events that are stored.
    pub fn graph(&self) -> &Graph
        ensures { result.now ≡ record { stored = self.now.room.stored; reserved = self.now.reserved } }
    {
        &self.graph
    }

    /// The stored event of this id. All that it names is stored.
    pub fn stored(&self, id: &str) -> Option<&Stored>
        ensures event { option_map (λ s. s.now) result ≡ stored_at self.now.room.stored id.now }
        ensures ready { IfSome result (λ s. is_ready self.now.room.stored s.now.event.event ≡ true) }
    {
        self.graph.get(id)
    }

    /// The events that wait, in the order of arrival.
    pub fn waiting(&self) -> &[Checked]
        ensures { result.now ≡ self.now.room.waiting }
    {
        self.waiting.as_slice()
    }

    /// How many events were dropped.
    pub fn dropped(&self) -> u64
        ensures { result ≡ self.now.room.dropped }
    {
        self.dropped
    }

    /// The version of the room: that of its first event, and 10 where it has none.
    pub fn version(&self) -> Version
        ensures { result ≡ version_of self.now.room.stored }
    {
        match self.graph.events().first() {
            Some(first) => first.event.event().version(),
            None => Version::V10,
        }
    }

    /// The forward extremities, in the order of storing.
    pub fn extremities(&self) -> &[EventId]
        ensures { result.now ≡ extremities_of self.now.room.stored }
    {
        self.extremities.as_slice()
    }

    /// Whether an event of this id is stored or waits.
    pub fn is_known(&self, id: &str) -> bool
        ensures { result ≡ is_known self.now.room id.now }
    {
        self.graph.contains(id) || is_waiting(&self.waiting, id)
    }

    /// Takes in an event that comes, as far as it takes no verdict: one that is neither known nor ready waits, where fewer than
    /// `MOST_WAITING` do, and else it is dropped. One that is ready comes back to be stored, and the store is as it was.
    ///
    /// # Errors
    ///
    /// The event and `NoMemory`, of an event that would wait; then the store is as it was.
    pub fn admit(&mut self, event: Checked) -> Result<Arrival, (Checked, NoMemory)>
        ensures arrival { IfOk result (λ arrival. IsArrival self.old event arrival self.new) }
        ensures back { IfErr result (λ e. e.0 ≡ event) }
        ensures err { OnErr result (self.new ≡ self.old) }
        ensures known { (rules : Rules) → receipt_of rules self.old.room event ≡ receipt.Known → IsOk result }
        ensures dropped { (rules : Rules) → receipt_of rules self.old.room event ≡ receipt.Dropped → IsOk result }
    {
        if self.is_known(event.event().id().as_str()) {
            return Ok(Arrival::Told(Receipt::Known));
        }
        let lack = lack_of(&self.graph, event.event());
        if lack.is_none() {
            return Ok(Arrival::Ready(event));
        }
        if self.waiting.len() >= MOST_WAITING {
            self.dropped = self.dropped.saturating_add(1);
            return Ok(Arrival::Told(Receipt::Dropped));
        }
        if let Err(error) = self.waiting.reserve(1) {
            return Err((event, error));
        }
        if let Err(error) = self.lacks.reserve(1) {
            return Err((event, error));
        }
        self.waiting.push(event).unwrap();
        self.lacks.push(lack).unwrap();
        Ok(Arrival::Told(Receipt::Waiting))
    }

    /// Makes room for the event of this id, so that `store` takes no memory, in place of the room that was made before.
    ///
    /// # Errors
    ///
    /// `NoMemory`; then the store is as it was.
    pub fn reserve(&mut self, alloc: Global, id: &EventId) -> Result<(), NoMemory>
        ensures ok { OnOk result (self.new ≡ with_room_for self.old id.now) }
        ensures err { OnErr result (self.new ≡ self.old) }
    {
        self.extremities.reserve(1)?;
        self.graph.reserve(alloc, id)
    }

    /// Stores an event that is ready and that room was made for, with a verdict. It waits no longer if it did. It takes no memory.
    pub fn store(&mut self, event: Checked, verdict: Verdict)
        requires reserved { self.old.reserved ≡ Some (event_id event) }
        requires new { is_stored self.old.room.stored (event_id event) ≡ false }
        requires ready { is_ready self.old.room.stored event.event ≡ true }
        ensures stored { self.new ≡ after_store self.old event verdict }
        ensures graph { IsGraph self.new.room.stored }
    {
        forget(
            &mut self.waiting,
            &mut self.lacks,
            event.event().id().as_str(),
        );
        leave_followed(&mut self.extremities, event.event(), verdict);
        let id = self.graph.push_reserved(event, verdict);
        renew(
            &mut self.lacks,
            &self.graph,
            &self.waiting,
            tag_of_id(id.as_str()),
        );
        lead(&mut self.extremities, id, verdict);
    }

    /// The place, among those that wait, of the event that came first of those that are ready.
    pub fn first_ready(&self) -> Option<usize>
        ensures { MatchOption result (first_ready self.now.room ≡ None) (IsFirstReady self.now.room) }
    {
        first_none(&self.lacks)
    }

    /// Stores the event that waits at this place, counted from 0, with a verdict: it is the first that is ready, and room was made for
    /// it. It takes no memory.
    pub fn store_waiting(&mut self, place: usize, verdict: Verdict)
        requires first { IsFirstReady self.old.room place }
        requires reserved { option_map event_id (slice_get self.old.room.waiting place) ≡ self.old.reserved }
        ensures stored { IfSome (slice_get self.old.room.waiting place) (λ event. self.new ≡ after_store self.old event verdict) }
        ensures graph { IsGraph self.new.room.stored }
    {
        let event = self.waiting.remove(place);
        self.lacks.remove(place);
        self.store(event, verdict);
    }
}

// Whether an event of this id waits.
fn is_waiting(waiting: &[Checked], id: &str) -> bool
    ensures { result ≡ is_waiting waiting.now id.now }
{
    waiting
        .iter()
        .any(|event| event.event().id().as_str() == id)
}

// The place of the first event of this id that waits.
fn place_of(waiting: &[Checked], id: &str) -> Option<usize>
    ensures { result ≡ position (is_of_id id.now) waiting.now }
{
    waiting
        .iter()
        .position(|event| event.event().id().as_str() == id)
}

// The events of this id wait no longer, and what they lack goes with them.
fn forget(waiting: &mut Vec<Checked>, lacks: &mut Vec<Option<usize>>, id: &str)
    requires { length lacks.old.items ≡ length waiting.old.items }
    ensures waiting { waiting.new.items ≡ without id.now waiting.old.items }
    ensures lacks { (lack : CheckedEvent → Option ℕ) → lacks.old.items ≡ map lack waiting.old.items → lacks.new.items ≡ map lack waiting.new.items }
{
    while let Some(place) = place_of(waiting, id) {
        drop(waiting.remove(place));
        lacks.remove(place);
    }
}

// Where an event is accepted, those that it names as prev events are no longer extremities.
fn leave_followed(extremities: &mut Vec<EventId>, event: &Pdu, verdict: Verdict)
    ensures items { extremities.new.items
        ≡ (if is_accepted verdict then filter (λ id. not (names event.now id)) extremities.old.items else extremities.old.items) }
    ensures len { vec_len extremities.new ≤ vec_len extremities.old }
    ensures capacity { vec_capacity extremities.new ≡ vec_capacity extremities.old }
{
    if verdict.is_accepted() {
        extremities.retain(|id| !has_prev_event(event, id.as_str()));
    }
}

// An accepted event is an extremity.
fn lead(extremities: &mut Vec<EventId>, id: EventId, verdict: Verdict)
    requires { vec_len extremities.old < vec_capacity extremities.old }
    ensures { extremities.new.items ≡ (if is_accepted verdict then extremities.old.items ++ id ∷ [] else extremities.old.items) }
{
    if verdict.is_accepted() {
        extremities.push(id).unwrap();
    }
}

// Whether an event names the event of this id as a prev event.
fn has_prev_event(event: &Pdu, id: &str) -> bool
    ensures { result ≡ names event.now id.now }
{
    for prev in event.prev_events() {
        if prev == id {
            return true;
        }
    }
    false
}
