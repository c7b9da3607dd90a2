// Events that are stored, each behind its auth events.
ghost use Rattle.std.specs.Prelude.{◌≡◌, ◌==◌, ◌++◌, ◌∷◌, [], Some, None, true, false, map, length, position, slice_get, option_map, All, IfSome, OnOk, OnErr, ◌<◌};

use crate::links::{Links, add_auths};
use crate::places::Places;
use crate::verdict::Verdict;
use fed_event::{Checked, EventId, EventIds, MAX_AUTH_EVENTS, Pdu};
use fed_json::NoMemory;
use std::alloc::Global;
use std::marker::Model;

/// An event that is stored, and what a room made of it.
#[derive(Drop)]
pub struct Stored {
    pub event: Checked,
    pub verdict: Verdict,
}

/// Events in the order of storing: different events, each of which names only earlier ones as auth events (Server-Server API, "PDUs"). Those
/// that a room has stored stand behind their prev events too, which an `EventStore` sees to; state resolution asks for auth events alone.
///
/// Contracts see it as the list of these events, and beside it the id of the event for which `reserve` has made room.
#[derive(Drop)]
pub struct Graph {
    events: Vec<Stored>,
    places: Places,
    auths: Links,
    reserved: Option<EventId>,
}

impl Model for Graph {
    ghost use Rattle.fed_room_contract.specs.GraphState.{GraphState, graph_code};
    ghost use Rattle.fed_room_contract.specs.GraphParts.{graph_of, HoldsTogether};

    ghost Value = { GraphState };

    ghost coded = { graph_code };

    ghost view = { graph_of };

    ghost invariant = { HoldsTogether };
}

impl Graph {
    ghost use Rattle.fed_event.specs.EventId.{event_id_of};
    ghost use Rattle.fed_event.specs.EventIds.{ids_left};
    ghost use Rattle.std.specs.List.{list_all};
    ghost use Rattle.fed_room_contract.specs.Graph.{IsAuthGraph, has_id, stored_at, is_stored, auth_places_at, has_auths as has_auths_in, is_ready as is_ready_in};
    ghost use Rattle.fed_room_contract.specs.GraphState.{with_event, with_room};

    /// The graph in which nothing is stored.
    pub fn new(alloc: Global) -> Graph
        ensures { result ≡ record { stored = []; reserved = None } }
    {
        Graph {
            events: Vec::new(alloc),
            places: Places::new(alloc),
            auths: Links::new(alloc),
            reserved: None,
        }
    }

    /// The events, in the order of storing.
    pub fn events(&self) -> &[Stored]
        ensures stored { result.now ≡ self.now.stored }
        ensures graph { IsAuthGraph self.now.stored }
    {
        self.events.as_slice()
    }

    /// How many events are stored.
    pub fn len(&self) -> usize
        ensures { result ≡ length self.now.stored }
    {
        self.events.len()
    }

    /// Whether none is stored.
    pub fn is_empty(&self) -> bool
        ensures { result ≡ (length self.now.stored == 0) }
    {
        self.len() == 0
    }

    /// The event that was stored first.
    pub fn first(&self) -> Option<&Stored>
        ensures { option_map (λ s. s.now) result ≡ slice_get self.now.stored 0 }
    {
        self.at(0)
    }

    /// The event at a place, counted from 0.
    pub fn at(&self, place: usize) -> Option<&Stored>
        ensures { option_map (λ s. s.now) result ≡ slice_get self.now.stored place }
    {
        self.events.get(place)
    }

    /// The place of the event of this id, counted from 0.
    pub fn place(&self, id: &str) -> Option<usize>
        ensures place { result ≡ position (has_id id.now) self.now.stored }
        ensures within { IfSome result (λ place. place < length self.now.stored) }
    {
        match self.near_place(id) {
            Some(place) => Some(place),
            None => self.places.get(id),
        }
    }

    /// The places of the auth events of the event at a place, in the order in which it names them: they were found once, when it was
    /// stored. There are none where no event is stored there.
    pub fn auth_places(&self, place: usize) -> &[usize]
        ensures places { result.now ≡ auth_places_at self.now.stored place }
        ensures before { All (λ auth. auth < place) result.now }
        ensures within { All (λ auth. auth < length self.now.stored) result.now }
    {
        self.auths.get(place)
    }

    /// The event of this id.
    pub fn get(&self, id: &str) -> Option<&Stored>
        ensures { option_map (λ s. s.now) result ≡ stored_at self.now.stored id.now }
    {
        self.at(self.place(id)?)
    }

    /// Whether the event of this id is stored.
    pub fn contains(&self, id: &str) -> bool
        ensures { result ≡ is_stored self.now.stored id.now }
    {
        self.place(id).is_some()
    }

    /// Whether all prev events and auth events of an event are stored.
    pub fn is_ready(&self, event: &Pdu) -> bool
        ensures { result ≡ is_ready_in self.now.stored event.now }
    {
        self.contains_all(event.prev_events()) && self.has_auths(event)
    }

    /// Whether all auth events of an event are stored.
    pub fn has_auths(&self, event: &Pdu) -> bool
        ensures { result ≡ has_auths_in self.now.stored event.now }
    {
        self.contains_all(event.auth_events())
    }

    /// Stores an event whose auth events are stored.
    ///
    /// # Errors
    ///
    /// `NoMemory`; then the graph is as it was, and the event is lost.
    pub fn push(&mut self, alloc: Global, event: Checked, verdict: Verdict) -> Result<(), NoMemory>
        requires new { is_stored self.old.stored (event_id_of event.event) ≡ false }
        requires auths { has_auths_in self.old.stored event.event ≡ true }
        ensures ok { OnOk result (self.new ≡ with_event self.old (record { event = event; verdict = verdict })) }
        ensures err { OnErr result (self.new ≡ self.old) }
    {
        self.reserve(alloc, event.event().id())?;
        drop(self.push_reserved(event, verdict));
        Ok(())
    }

    /// Makes room for the event of this id, so that `push_reserved` takes no memory, in place of the room that was made before.
    ///
    /// # Errors
    ///
    /// `NoMemory`; then the graph is as it was.
    pub fn reserve(&mut self, alloc: Global, id: &EventId) -> Result<(), NoMemory>
        ensures ok { OnOk result (self.new ≡ with_room self.old id.now) }
        ensures err { OnErr result (self.new ≡ self.old) }
    {
        self.events.reserve(1)?;
        self.auths.reserve(MAX_AUTH_EVENTS)?;
        let reserved = id.copy(alloc)?;
        self.places.make_room(alloc, id, self.reserved.as_ref())?;
        self.reserved = Some(reserved);
        Ok(())
    }

    /// Stores an event whose auth events are stored and that room was made for, and gives its id. It takes no memory.
    pub fn push_reserved(&mut self, event: Checked, verdict: Verdict) -> EventId
        requires reserved { self.old.reserved ≡ Some (event_id_of event.event) }
        requires new { is_stored self.old.stored (event_id_of event.event) ≡ false }
        requires auths { has_auths_in self.old.stored event.event ≡ true }
        ensures id { result ≡ event_id_of event.event }
        ensures stored { self.new ≡ with_event self.old (record { event = event; verdict = verdict }) }
    {
        let place = self.events.len();
        add_auths(&mut self.auths, &self.places, event.event());
        self.places.enter(event.event().id().as_str(), place);
        self.events.push(Stored { event, verdict }).unwrap();
        match self.reserved.take() {
            Some(id) => id,
            None => unreachable!(),
        }
    }

    // The place of the event of this id, where it is the last one or an auth event of that: of most ids that the next event names.
    fn near_place(&self, id: &str) -> Option<usize>
        ensures { IfSome result (λ place. position (has_id id.now) self.now.stored ≡ Some place) }
    {
        let last = self.events.len().checked_sub(1)?;
        if self.is_at(last, id) {
            return Some(last);
        }
        for place in self.auths.get(last) {
            if self.is_at(*place, id) {
                return Some(*place);
            }
        }
        None
    }

    // Whether the event at a place has this id.
    fn is_at(&self, place: usize, id: &str) -> bool
        ensures { result ≡ true → position (has_id id.now) self.now.stored ≡ Some place }
    {
        match self.events.get(place) {
            Some(stored) => stored.event.event().id().as_str() == id,
            None => false,
        }
    }

    // Whether the events of all these ids are stored.
    fn contains_all(&self, ids: EventIds<'_>) -> bool
        ensures { result ≡ list_all (is_stored self.now.stored) (ids_left ids.entry) }
    {
        for id in ids {
            if !self.contains(id) {
                return false;
            }
        }
        true
    }
}
