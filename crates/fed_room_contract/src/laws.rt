// What holds of all states and graphs.
ghost use Rattle.std.specs.Prelude.{◌≡◌, ◌≢◌, ℕ, List, [], ◌∷◌, ◌++◌, ◌||◌, Some, None, false, true};
ghost use Rattle.std.specs.FinMap as finite;
ghost use Rattle.fed_event.specs.Event.{Event};
ghost use Rattle.fed_event.specs.Checked.{CheckedEvent};
ghost use Rattle.fed_room_contract.specs.declared.graph.Stored.{Stored};
ghost use Rattle.fed_room_contract.specs.declared.input.Input.{Input};
ghost use Rattle.fed_room_contract.specs.declared.input.Input.TheVariants.{Receive, Advance, Commit};
ghost use Rattle.fed_room_contract.specs.State.{StateMap, StateKey, entry_at, with_entry};
ghost use Rattle.fed_room_contract.specs.Graph.{IsGraph, IsNext, IsAuthGraph, IsAuthNext, id_of, has_id, stored_at, is_stored, is_ready};
ghost use Rattle.fed_room_contract.specs.Lawful.{AreLawful};
ghost use Rattle.fed_room_contract.specs.Room.{Rules, RoomState, empty_room, receipt_of, after_receipt, advanced, committed};
ghost use Rattle.fed_room_contract.specs.Runs.{after_input, room_after, IsRoom, MayBeGiven, AllMayBeGiven};

use crate::engine::RoomEngine;

/// At a type and state key a state has what was laid over last there; states with the same entries are one.
pub fn entries_of_states()
    ensures empty { (kind key : List ℕ) → entry_at finite.empty kind key ≡ None }
    ensures laid { (state : StateMap) (kind key id : List ℕ) → entry_at (with_entry state kind key id) kind key ≡ Some id }
    ensures others { (state : StateMap) (kind key id : List ℕ) (other : StateKey) → other ≢ (kind, key)
        → entry_at (with_entry state kind key id) other.0 other.1 ≡ entry_at state other.0 other.1 }
    ensures same { (state other : StateMap) → ((kind key : List ℕ) → entry_at state kind key ≡ entry_at other kind key) → state ≡ other }
{}

/// An event that is stored stays found as more are stored, and what was ready stays ready.
pub fn stored_events_stay()
    ensures found { (events more : List Stored) (id : List ℕ) (stored : Stored) → stored_at events id ≡ Some stored
        → stored_at (events ++ more) id ≡ Some stored }
    ensures last { (events : List Stored) (next : Stored) → is_stored events (id_of next) ≡ false
        → stored_at (events ++ next ∷ []) (id_of next) ≡ Some next }
    ensures others { (events : List Stored) (next : Stored) (id : List ℕ) → id ≢ id_of next
        → stored_at (events ++ next ∷ []) id ≡ stored_at events id }
    ensures ready { (events more : List Stored) (event : Event) → is_ready events event ≡ true → is_ready (events ++ more) event ≡ true }
{}

/// A graph grows by an event that comes next, and by no other.
pub fn graphs_grow()
    ensures empty { IsGraph [] }
    ensures next { (events : List Stored) (next : Stored) → IsGraph events → IsNext events next → IsGraph (events ++ next ∷ []) }
    ensures last { (events : List Stored) (next : Stored) → IsGraph (events ++ next ∷ []) → IsNext events next }
    ensures front { (events more : List Stored) → IsGraph (events ++ more) → IsGraph events }
{}

/// A graph is one by auth events too; and one by auth events grows by an event whose auth events are there, and by no other.
pub fn auth_graphs_grow()
    ensures graph { (events : List Stored) → IsGraph events → IsAuthGraph events }
    ensures empty { IsAuthGraph [] }
    ensures next { (events : List Stored) (next : Stored) → IsAuthGraph events → IsAuthNext events next → IsAuthGraph (events ++ next ∷ []) }
    ensures last { (events : List Stored) (next : Stored) → IsAuthGraph (events ++ next ∷ []) → IsAuthNext events next }
    ensures front { (events more : List Stored) → IsAuthGraph (events ++ more) → IsAuthGraph events }
{}

/// What a room has stored stays, in its order, whatever it is given.
pub fn rooms_grow()
    ensures stored { (rules : Rules) (room : RoomState) (inputs : List Input)
        → (more : List Stored) × ((room_after rules room inputs).stored ≡ room.stored ++ more) }
    ensures inputs { (rules : Rules) (room : RoomState) (inputs more : List Input)
        → room_after rules room (inputs ++ more) ≡ room_after rules (room_after rules room inputs) more }
{}

/// What becomes of a room by `receive`, by `advance` and by `commit` is what becomes of it by that input; and after a list of inputs and
/// one more it is what that one makes of the room after the list.
pub fn calls_are_inputs()
    ensures receive { (rules : Rules) (room : RoomState) (event : CheckedEvent)
        → after_receipt room event (receipt_of rules room event) ≡ after_input rules room (Receive event) }
    ensures advance { (rules : Rules) (room : RoomState) → advanced rules room ≡ after_input rules room Advance }
    ensures commit { (rules : Rules) (room : RoomState) (event : CheckedEvent) → committed room event ≡ after_input rules room (Commit event) }
    ensures one_more_input { (rules : Rules) (room : RoomState) (inputs : List Input) (input : Input)
        → room_after rules room (inputs ++ input ∷ []) ≡ after_input rules (room_after rules room inputs) input }
{}

/// A new room is well formed, and what it is given leaves it so: the stored events are a graph, each with the verdict of the rules over
/// those that were stored before it; the waiting ones are different from one another and not stored, and at most `MOST_WAITING`. An
/// event that is committed has to be stored already, or ready and accepted, as `prepare` gives it.
pub fn rooms_stay_well_formed()
    ensures new { (rules : Rules) → IsRoom rules empty_room }
    ensures input { (rules : Rules) (room : RoomState) (input : Input) → IsRoom rules room → MayBeGiven rules room input
        → IsRoom rules (after_input rules room input) }
    ensures inputs { (rules : Rules) (room : RoomState) (inputs : List Input) → IsRoom rules room → AllMayBeGiven rules room inputs
        → IsRoom rules (room_after rules room inputs) }
{}

/// The rules of whatever keeps a room are such as every room relies on: the state before an event stays as the room grows, and states
/// name stored events alone.
pub fn rules_are_lawful<R: RoomEngine>()
    ensures { (engine : R) → AreLawful (R.rules engine) }
{}

/// The state before a stored event stays, whatever the room is given.
pub fn states_before_stay()
    ensures { (rules : Rules) (room : RoomState) (inputs : List Input) (id : List ℕ) (stored : Stored) → AreLawful rules
        → IsRoom rules room → AllMayBeGiven rules room inputs → stored_at room.stored id ≡ Some stored
        → rules.before (room_after rules room inputs).stored stored.event.event ≡ rules.before room.stored stored.event.event }
{}
