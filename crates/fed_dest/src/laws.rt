// What holds of the servers that an event is sent to.
ghost use Rattle.std.specs.Prelude.{◌≡◌, ◌≢◌, ◌++◌, ℕ, List, Some, None, true, false, slice_get};
ghost use Rattle.fed_room_contract.specs.declared.graph.Stored.{Stored};
ghost use Rattle.fed_room_contract.specs.State.{StateMap};
ghost use Rattle.fed_room_contract.specs.Lawful.{NamesStored};
ghost use Rattle.fed_dest.specs.Joined.{is_joined, is_joined_place, is_destination};

/// The own server is no destination, nor is one that is not listed; of the other listed servers those are that are joined.
pub fn what_destinations_are()
    ensures own { (events : List Stored) (state : StateMap) (servers : List (List ℕ)) (own : ℕ)
        → is_destination events state servers own own ≡ false }
    ensures listed { (events : List Stored) (state : StateMap) (servers : List (List ℕ)) (own place : ℕ)
        → slice_get servers place ≡ None → is_destination events state servers own place ≡ false }
    ensures others { (events : List Stored) (state : StateMap) (servers : List (List ℕ)) (own place : ℕ) (server : List ℕ)
        → place ≢ own → slice_get servers place ≡ Some server → is_destination events state servers own place ≡ is_joined events state server }
{}

/// Where each entry of a state names a stored event, the servers that are joined by that state, and the destinations, stay as more
/// events are stored.
pub fn destinations_stay()
    ensures joined { (events more : List Stored) (state : StateMap) (server : List ℕ) → NamesStored events state
        → is_joined (events ++ more) state server ≡ is_joined events state server }
    ensures places { (events more : List Stored) (state : StateMap) (servers : List (List ℕ)) (place : ℕ) → NamesStored events state
        → is_joined_place (events ++ more) state servers place ≡ is_joined_place events state servers place }
    ensures destinations { (events more : List Stored) (state : StateMap) (servers : List (List ℕ)) (own place : ℕ) → NamesStored events state
        → is_destination (events ++ more) state servers own place ≡ is_destination events state servers own place }
{}
