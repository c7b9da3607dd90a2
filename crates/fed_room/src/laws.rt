// What holds of the states of a room, of the events that it makes, and of all rooms that begin with some events.
ghost use Rattle.std.specs.Prelude.{◌≡◌, ◌≤ℤ◌, ◌+ℤ◌, ◌-◌, ◌^◌, ℕ, ℤ, pos, negsuc, true, List, ◌++◌, map};
ghost use Rattle.std.specs.Int.{int_min};
ghost use Rattle.fed_event.specs.Event.{Event};
ghost use Rattle.fed_event.specs.Fields.{prev_events_of, depth_of};
ghost use Rattle.fed_event.specs.Checked.{CheckedEvent};
ghost use Rattle.fed_room_contract.specs.declared.input.Input.{Input};
ghost use Rattle.fed_room_contract.specs.declared.input.Input.TheVariants.{Receive};
ghost use Rattle.fed_room_contract.specs.Room.{Rules, RoomState, empty_room};
ghost use Rattle.fed_room_contract.specs.Runs.{room_after, IsRoom, AllMayBeGiven};
ghost use Rattle.fed_room_contract.specs.declared.graph.Stored.{Stored};
ghost use Rattle.fed_room_contract.specs.Draft.{DraftFields};
ghost use Rattle.fed_room_contract.specs.Graph.{IsGraph, is_stored};
ghost use Rattle.fed_room_contract.specs.Prepared.{Signer, sealed_by};
ghost use Rattle.fed_room_contract.specs.Room.{extremities_of};
ghost use Rattle.fed_room_contract.specs.State.{StateMap};
ghost use Rattle.fed_room.specs.Laws.{before_by, AreStatesAfter, AreByDepth, ArePrevEvents, IsDepthAfter};
ghost use Rattle.fed_room.specs.Links.{next_depth};
ghost use Rattle.fed_room.specs.Room.{room_rules};
ghost use Rattle.fed_room.specs.Start.{after_all};
ghost use Rattle.fed_room.specs.States.{state_after};

/// The state before an event is what the states after its prev events resolve to. The state after a stored event is the state before it,
/// with the event's own entry laid over it where it is a state event and was not rejected; and no others are the states after the events.
pub fn states_follow_the_events()
    ensures before { (events : List Stored) (event : Event) → room_rules.before events event ≡ before_by events (state_after events) event }
    ensures after { (events : List Stored) → IsGraph events → AreStatesAfter events (state_after events) }
    ensures only { (events : List Stored) (after : List ℕ → StateMap) (id : List ℕ) → IsGraph events → AreStatesAfter events after
        → is_stored events id ≡ true → after id ≡ state_after events id }
{}

/// The event that a room makes of a draft names as prev events the forward extremities by greater depth, then smaller id, and of these at
/// most 20; its depth is one more than the greatest of theirs, and at most 2^53 - 1, or 1 where there are none.
pub fn what_a_new_event_names()
    ensures prev_events { (signer : Signer) (events : List Stored) (draft : DraftFields)
        → ArePrevEvents events (prev_events_of (sealed_by signer (room_rules.parts events draft))) }
    ensures depth { (signer : Signer) (events : List Stored) (draft : DraftFields)
        → IsDepthAfter events (extremities_of events) (depth_of (sealed_by signer (room_rules.parts events draft))) }
    ensures one_more { (depth : ℤ) → negsuc (2 ^ 53 - 2) ≤ℤ depth → next_depth depth ≡ int_min (depth +ℤ pos 1) (pos (2 ^ 53 - 1)) }
{}

/// Ids stand by depth in one order, so that the same events have one list of prev events for a new one.
pub fn ids_have_one_order()
    ensures by_depth { (events : List Stored) (ids sorted other : List (List ℕ)) → AreByDepth events ids sorted → AreByDepth events ids other → sorted ≡ other }
    ensures prev_events { (events : List Stored) (ids other : List (List ℕ)) → ArePrevEvents events ids → ArePrevEvents events other → ids ≡ other }
{}

/// The events that a room begins with are inputs: after them it is the room that received them, one after another, and after further
/// inputs it is the empty room after both lists. Such a room is well formed, by whatever rules it goes and whether or not it takes all
/// those events, and it stays so with any inputs that it may be given.
pub fn a_started_room_and_its_inputs()
    ensures received { (rules : Rules) (room : RoomState) (events : List CheckedEvent)
        → after_all rules room events ≡ room_after rules room (map Receive events) }
    ensures inputs { (rules : Rules) (events : List CheckedEvent) (inputs : List Input)
        → room_after rules (after_all rules empty_room events) inputs ≡ room_after rules empty_room (map Receive events ++ inputs) }
    ensures well_formed { (rules : Rules) (events : List CheckedEvent) → IsRoom rules (after_all rules empty_room events) }
    ensures stays { (rules : Rules) (events : List CheckedEvent) (inputs : List Input)
        → AllMayBeGiven rules (after_all rules empty_room events) inputs
        → IsRoom rules (room_after rules empty_room (map Receive events ++ inputs)) }
{}
