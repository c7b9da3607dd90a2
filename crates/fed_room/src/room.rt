// A room by the standard.
ghost use Rattle.std.specs.Prelude.{◌≡◌, ◌≢◌, true, false, None, Some, Err, IfOk, IfErr, OnOk, OnErr, IsNone, string_bytes};
ghost use Rattle.std.specs.List.{list_all};
ghost use Rattle.serde_json.specs.Find.{of_integer};
ghost use Rattle.fed_json.specs.Profile.{is_whole};
ghost use Rattle.fed_room_contract.specs.Graph.{is_stored, is_ready};
ghost use Rattle.fed_room_contract.specs.Room.{empty_room, event_id};
ghost use Rattle.fed_room_contract.specs.Store.{after_store, with_room_for};
ghost use Rattle.fed_room_contract.specs.StateRef.{seen as ref_seen};
ghost use Rattle.fed_room.specs.StatesParts.{seen, after_seen, IsThere, IsThereIn, IsKeptIn};
ghost use Rattle.fed_room.specs.States.{resolved_after, state_before, current_state, state_with, states_after};
ghost use Rattle.fed_room.specs.Decision.{verdict_of};
ghost use Rattle.fed_room.specs.Links.{links_of};
ghost use Rattle.fed_room.specs.LinksParts.{links_seen};

use crate::after::After;
use crate::decision::allowed_by_both;
use crate::drafting::{check, made};
use crate::ids::are_same;
use crate::links::{Links, depth_after, prev_events, selection};
use crate::places::{places_in, places_of};
use crate::resolved::{Resolved, resolved_at};
use fed_auth::{Selector, allowed_in};
use fed_event::{Checked, EventId, Keys, Pdu};
use fed_json::NoMemory;
use fed_room_contract::{
    Arrival, Draft, EventStore, Graph, Prepared, Receipt, Refusal, RoomEngine, State, StateRef,
    Steps, Verdict,
};
use std::alloc::Global;
use std::marker::Model;

/// A room of version 10, at a server: it decides on each event by the authorization rules, by the event's auth events, by the state
/// before it and by the current state (Server-Server API, "Checks performed on receipt of a PDU", checks 4 to 6). The state before an
/// event is what the states after its prev events resolve to, and the current state what those after the forward extremities do. The
/// state after each stored event is kept as a step from an earlier one.
///
/// The event that it makes of a draft follows the forward extremities, at most `MAX_PREV_EVENTS`, the deepest first, and has the auth
/// events that the state before it selects.
///
/// Contracts see it as the name of its server and its events, and beside these the state after the next event, where `prepare` has made it.
#[derive(Drop)]
pub struct Room {
    own: String,
    store: EventStore,
    states: Steps,
}

impl Model for Room {
    ghost use Rattle.fed_room.specs.Room.{RoomValue, room_code};
    ghost use Rattle.fed_room.specs.RoomParts.{value_of, HoldsTogether};

    ghost Value = { RoomValue };

    ghost coded = { room_code };

    ghost view = { value_of };

    ghost invariant = { HoldsTogether };
}

impl Room {
    ghost use Rattle.fed_room_contract.specs.Lawful.{NamesStored};
    ghost use Rattle.std.specs.Prelude.{IsOk};
    ghost use Rattle.fed_room_contract.specs.declared.receipt.Receipt.TheVariants as receipt;
    ghost use Rattle.fed_room_contract.specs.Room.{receipt_of, after_receipt};
    ghost use Rattle.fed_room.specs.Room.{room_of, room_rules};

    /// A room of a server in which nothing is stored.
    pub(crate) fn empty(alloc: Global, own: &str) -> Result<Room, NoMemory>
        ensures { IfOk result (λ room. room ≡ record { own = own.now; store = record { room = empty_room; reserved = None }; next = None }) }
    {
        Ok(Room {
            own: String::from_str(alloc, own)?,
            store: EventStore::new(alloc),
            states: Steps::new(alloc),
        })
    }

    /// The name of the server that the room is kept at.
    pub fn own(&self) -> &str
        ensures { result.now ≡ self.now.own }
    {
        self.own.as_str()
    }

    // The states after the events of these ids, resolved.
    fn resolved_after(&self, alloc: Global, ids: &[EventId]) -> Result<Resolved<'_>, NoMemory>
        requires { list_all (is_stored self.now.store.room.stored) ids.now ≡ true }
        ensures state { IfOk result (λ resolved. seen resolved ≡ resolved_after self.now.store.room.stored ids.now) }
        ensures named { IfOk result (λ resolved. NamesStored self.now.store.room.stored (seen resolved)) }
        ensures kept { IfOk result (IsKeptIn (states_after self.now.store.room.stored)) }
    {
        let graph = self.store.graph();
        let places = places_of(alloc, graph, ids)?;
        resolved_at(alloc, graph, &self.states, &places)
    }

    // The state before an event that is ready.
    fn resolved_before(&self, alloc: Global, event: &Pdu) -> Result<Resolved<'_>, NoMemory>
        requires { is_ready self.now.store.room.stored event.now ≡ true }
        ensures state { IfOk result (λ resolved. seen resolved ≡ state_before self.now.store.room.stored event.now) }
        ensures named { IfOk result (λ resolved. NamesStored self.now.store.room.stored (seen resolved)) }
        ensures kept { IfOk result (IsKeptIn (states_after self.now.store.room.stored)) }
    {
        let graph = self.store.graph();
        let places = places_in(alloc, graph, event.prev_events())?;
        resolved_at(alloc, graph, &self.states, &places)
    }

    // The current state.
    fn resolved_now(&self, alloc: Global) -> Result<Resolved<'_>, NoMemory>
        ensures state { IfOk result (λ resolved. seen resolved ≡ current_state self.now.store.room.stored) }
        ensures named { IfOk result (λ resolved. NamesStored self.now.store.room.stored (seen resolved)) }
        ensures kept { IfOk result (IsKeptIn (states_after self.now.store.room.stored)) }
    {
        self.resolved_after(alloc, self.store.extremities())
    }

    // The verdict on an event of this state before it. Where it follows just the forward extremities, this is the current state too: then
    // nothing is resolved for that, and no rule is asked again.
    fn verdict(
        &self,
        alloc: Global,
        event: &Checked,
        before: StateRef<'_>,
    ) -> Result<Verdict, NoMemory>
        requires { ref_seen before ≡ state_before self.now.store.room.stored event.now.event }
        ensures { IfOk result (λ verdict. verdict ≡ verdict_of self.now.store.room.stored event.now) }
    {
        let graph = self.store.graph();
        if let Err(rule) = allowed_by_both(alloc, graph, event, before)? {
            return Ok(Verdict::Rejected(rule));
        }
        if are_same(event.event().prev_events(), self.store.extremities()) {
            return Ok(Verdict::Accepted);
        }
        let current = self.resolved_now(alloc)?;
        match allowed_in(graph, event, current.state()) {
            Ok(()) => Ok(Verdict::Accepted),
            Err(rule) => Ok(Verdict::SoftFailed(rule)),
        }
    }

    // The verdict on an event that is ready, and the state after it.
    fn decided(&self, alloc: Global, event: &Checked) -> Result<(Verdict, After), NoMemory>
        requires { is_ready self.now.store.room.stored event.now.event ≡ true }
        ensures verdict { IfOk result (λ r. r.0 ≡ verdict_of self.now.store.room.stored event.now) }
        ensures there { IfOk result (λ r. IsThereIn (states_after self.now.store.room.stored) r.1) }
        ensures after { IfOk result (λ r. after_seen (states_after self.now.store.room.stored) event.now.event r.1
            ≡ state_with (state_before self.now.store.room.stored event.now.event) (record { event = event.now; verdict = r.0 })) }
    {
        let before = self.resolved_before(alloc, event.event())?;
        let verdict = self.verdict(alloc, event, before.state())?;
        let after = before.after(alloc, event, verdict)?;
        Ok((verdict, after))
    }

    // Decides on an event that is ready, and makes room for it and the state after it. An error leaves the room as it was.
    fn decide_next(&mut self, alloc: Global, event: &Checked) -> Result<Verdict, NoMemory>
        requires { is_ready self.old.store.room.stored event.now.event ≡ true }
        ensures verdict { IfOk result (λ verdict. verdict ≡ verdict_of self.old.store.room.stored event.now) }
        ensures ok { IfOk result (λ verdict. self.new ≡ record { own = self.old.own; store = with_room_for self.old.store (event_id event.now); next = Some (state_with (state_before self.old.store.room.stored event.now.event) (record { event = event.now; verdict = verdict })) }) }
        ensures err { OnErr result (self.new ≡ self.old) }
    {
        let (verdict, after) = self.decided(alloc, event)?;
        after.keep(alloc, event.event(), &mut self.states, &mut self.store)?;
        Ok(verdict)
    }

    // Stores an event that room was made for, and the state after it, which is the next one. It takes no memory.
    fn store_next(&mut self, event: Checked, verdict: Verdict)
        requires reserved { self.old.store.reserved ≡ Some (event_id event) }
        requires new { is_stored self.old.store.room.stored (event_id event) ≡ false }
        requires ready { is_ready self.old.store.room.stored event.event ≡ true }
        requires next { self.old.next ≡ Some (state_with (state_before self.old.store.room.stored event.event) (record { event = event; verdict = verdict })) }
        ensures { self.new ≡ record { own = self.old.own; store = after_store self.old.store event verdict; next = None } }
    {
        self.store.store(event, verdict);
        self.states.push_next();
    }

    /// What `receive` does, which leaves the name of the server.
    pub(crate) fn take(
        &mut self,
        alloc: Global,
        event: Checked,
    ) -> Result<Receipt, (Checked, NoMemory)>
        ensures receipt { IfOk result (λ r. r ≡ receipt_of room_rules (room_of self.old) event) }
        ensures after { IfOk result (λ r. room_of self.new ≡ after_receipt (room_of self.old) event r) }
        ensures back { IfErr result (λ e. e.0 ≡ event) }
        ensures err { OnErr result (self.new ≡ self.old) }
        ensures known { receipt_of room_rules (room_of self.old) event ≡ receipt.Known → IsOk result }
        ensures dropped { receipt_of room_rules (room_of self.old) event ≡ receipt.Dropped → IsOk result }
        ensures own { self.new.own ≡ self.old.own }
    {
        match self.store.admit(event)? {
            Arrival::Ready(event) => match self.decide_next(alloc, &event) {
                Ok(verdict) => {
                    self.store_next(event, verdict);
                    Ok(Receipt::Stored(verdict))
                }
                Err(error) => Err((event, error)),
            },
            Arrival::Told(receipt) => Ok(receipt),
        }
    }

    // What the event of a draft names, and the state before that event.
    fn links(&self, alloc: Global, draft: &Draft) -> Result<(Links, Resolved<'_>), NoMemory>
        ensures links { IfOk result (λ r. links_seen r.0 ≡ links_of self.now.store.room.stored draft.now) }
        ensures whole { IfOk result (λ r. is_whole (of_integer r.0.depth) ≡ true) }
        ensures kept { IfOk result (λ r. IsKeptIn (states_after self.now.store.room.stored) r.1) }
        ensures before { IfOk result (λ r. seen r.1 ≡ resolved_after self.now.store.room.stored r.0.prev_events.items) }
    {
        let graph = self.store.graph();
        let prev_events = prev_events(alloc, graph, self.store.extremities())?;
        let before = self.resolved_after(alloc, &prev_events)?;
        let auth_events = selection(alloc, draft, before.state())?;
        let depth = depth_after(graph, &prev_events);
        let links = Links {
            version: self.store.version(),
            auth_events,
            prev_events,
            depth,
        };
        Ok((links, before))
    }
}

impl RoomEngine for Room {
    ghost use Rattle.fed_room.specs.Room.{room_of, room_rules, IsPrepared};
    ghost use Rattle.fed_room.specs.RoomLawful.{room_lawful};

    ghost room = { room_of };

    ghost rules = { λ r. room_rules };

    ghost is_prepared = { IsPrepared };

    ghost lawful = { λ r. room_lawful };

    fn receive(&mut self, alloc: Global, event: Checked) -> Result<Receipt, (Checked, NoMemory)> {
        self.take(alloc, event)
    }

    fn advance(&mut self, alloc: Global) -> Result<Option<(EventId, Receipt)>, NoMemory> {
        let Some(place) = self.store.first_ready() else {
            return Ok(None);
        };
        let waiting = self.store.waiting()[place].copy(alloc)?;
        let event = waiting.event();
        let id = event.id().copy(alloc)?;
        let (verdict, after) = self.decided(alloc, &waiting)?;
        after.keep(alloc, event, &mut self.states, &mut self.store)?;
        self.store.store_waiting(place, verdict);
        self.states.push_next();
        Ok(Some((id, Receipt::Stored(verdict))))
    }

    fn prepare<K: Keys>(
        &mut self,
        alloc: Global,
        draft: Draft,
        keys: &K,
    ) -> Result<Prepared, Refusal> {
        check(&draft, keys)?;
        let (links, before) = self.links(alloc, &draft)?;
        let event = made(alloc, draft, links, keys)?;
        if let Some(rule) = self.verdict(alloc, &event, before.state())?.rule() {
            return Err(Refusal::NotAllowed(rule));
        }
        let shared = before.before(alloc)?;
        let after = before.after(alloc, &event, Verdict::Accepted)?;
        let state = shared.share(alloc, &mut self.states)?;
        let prepared = Prepared::sharing(alloc, event, state)?;
        let event = prepared.event().event();
        after.keep(alloc, event, &mut self.states, &mut self.store)?;
        Ok(prepared)
    }

    fn commit(&mut self, prepared: Prepared) -> EventId {
        let (event, id) = prepared.into_event();
        if !self.store.graph().contains(id.as_str()) {
            self.store_next(event, Verdict::Accepted);
        }
        id
    }

    fn state_before(&self, alloc: Global, id: &str) -> Result<Option<State>, NoMemory> {
        let Some(stored) = self.store.stored(id) else {
            return Ok(None);
        };
        let before = self.resolved_before(alloc, stored.event.event())?;
        Ok(Some(before.copy(alloc)?))
    }

    fn current(&self, alloc: Global) -> Result<State, NoMemory> {
        self.resolved_now(alloc)?.copy(alloc)
    }

    fn extremities(&self) -> &[EventId] {
        self.store.extremities()
    }

    fn waiting(&self) -> &[Checked] {
        self.store.waiting()
    }

    fn dropped(&self) -> u64 {
        self.store.dropped()
    }

    fn graph(&self) -> &Graph {
        self.store.graph()
    }
}
