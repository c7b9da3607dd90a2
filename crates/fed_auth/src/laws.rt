// What holds of all selections and auth states.
ghost use Rattle.std.specs.Prelude.{◌≡◌, ◌≢◌, ◌<◌, All, AllPairs, ℕ, List, Ok, false, find, option_map, bytes_eq, codes};
ghost use Rattle.std.specs.List.{list_any};
ghost use Rattle.fed_event.specs.Event.{Event};
ghost use Rattle.fed_event.specs.Fields.{auth_events_of, kind_of};
ghost use Rattle.fed_room_contract.specs.declared.graph.Stored.{Stored};
ghost use Rattle.fed_room_contract.specs.Graph.{id_of};
ghost use Rattle.fed_room_contract.specs.State.{StateMap, entry_at};
ghost use Rattle.fed_event.specs.Checked.{CheckedEvent};
ghost use Rattle.fed_auth.specs.Allowed.{allowed_of};
ghost use Rattle.fed_auth.specs.Selection.{SelectorFields, selector_of, is_at, entry_of, first_place, selection_keys, selection_of};
ghost use Rattle.fed_auth.specs.AuthState.{NamesOwnEvents, stored_of, has_double, is_outside_selection, stands_at, auth_state_of};

/// What a selection is, whatever the fields and the state. An id is in it exactly where the state has it at a key of the selection; no two
/// of its ids are one; and its ids stand in the order of the first keys at which the state has them.
pub fn what_is_selected()
    ensures among { (fields : SelectorFields) (state : StateMap) (id : List ℕ) →
        list_any (λ known. bytes_eq known id) (selection_of fields state) ≡ list_any (is_at state id) (selection_keys fields) }
    ensures once { (fields : SelectorFields) (state : StateMap) → AllPairs ◌≢◌ (selection_of fields state) }
    ensures in_order { (fields : SelectorFields) (state : StateMap) →
        AllPairs (λ one other. first_place fields state one < first_place fields state other) (selection_of fields state) }
{}

/// What is selected from a state has no two of one type and state key (2.1) and none outside the selection (2.2), where each event that
/// the state names is of the type and state key at which it names it.
pub fn selections_pass()
    ensures single { (events : List Stored) (fields : SelectorFields) (state : StateMap) → NamesOwnEvents events state
        → has_double (stored_of events (selection_of fields state)) ≡ false }
    ensures inside { (events : List Stored) (event : Event) (state : StateMap) → NamesOwnEvents events state
        → list_any (is_outside_selection event) (stored_of events (selection_of (selector_of event) state)) ≡ false }
{}

/// The auth state of an event that is no create event has at a type and state key the auth event of that type and state key, and
/// nothing where there is none.
pub fn what_an_auth_state_has()
    ensures { (events : List Stored) (event : Event) (state : StateMap) (kind key : List ℕ)
        → bytes_eq (kind_of event) (codes "m.room.create") ≡ false → auth_state_of events event ≡ Ok state
        → entry_at state kind key ≡ option_map id_of (find (stands_at kind key) (stored_of events (auth_events_of event))) }
{}

/// What a room makes of an event depends on what its state has at the keys of the event's selection alone.
pub fn the_selection_decides()
    ensures { (events : List Stored) (checked : CheckedEvent) (one other : StateMap)
        → All (λ key. entry_of one key ≡ entry_of other key) (selection_keys (selector_of checked.event))
        → allowed_of events checked one ≡ allowed_of events checked other }
{}
