// What holds of all resolved states; and the plain program of them.
ghost use Rattle.std.specs.Prelude.{◌≡◌, ◌<◌, ◌⊎◌, ℕ, List, [], ◌∷◌, ◌++◌, Option, Some, All, IfSome, length};
ghost use Rattle.std.specs.FinMap as finite;
ghost use Rattle.fed_room_contract.specs.declared.graph.Stored.{Stored};
ghost use Rattle.fed_room_contract.specs.Graph.{IsAuthGraph};
ghost use Rattle.fed_room_contract.specs.Lawful.{NamesStored};
ghost use Rattle.fed_resolve.specs.Chain.{IsChainTest};
ghost use Rattle.fed_resolve.specs.Mainline.{mainline, position_of};
ghost use Rattle.fed_resolve.specs.Resolution.{resolved_of};
ghost use Rattle.fed_resolve.specs.Conflict.{unconflicted};
ghost use Rattle.fed_resolve.specs.Laws.{AllNameStored, SomeStateHas, IsOfConflict, AreSameStates, IsMainline, IsPosition, IsPowerOrder, IsMainlineOrder};
ghost use Rattle.fed_room_contract.specs.State.{StateKey, StateMap};

mod plain;

pub use plain::resolve_plainly;

/// No states resolve to the state in which nothing holds.
pub fn no_states_are_empty()
    ensures { (events : List Stored) → resolved_of events [] ≡ finite.empty }
{}

/// In a graph, where each event names only earlier ones, the test of auth chains says what the relation does: an event is in the auth
/// chain of another one where it is an auth event of that one, or in the chain of one.
pub fn chain_test_is_exact()
    ensures { (events : List Stored) → IsAuthGraph events → IsChainTest events }
{}

/// The mainline of a power levels event is it, the power levels event among its auth events, and so on, to one that has none; and the
/// position of an event in a mainline is the least index that is reached from it in one or more such steps, and infinite where none is.
pub fn mainlines_are_exact()
    ensures line { (events : List Stored) (levels : Option ℕ) → IsAuthGraph events → IfSome levels (λ place. place < length events)
        → IsMainline events levels (mainline events levels) }
    ensures position { (events : List Stored) (line : List ℕ) (place : ℕ) → IsAuthGraph events → IsPosition events line place (position_of events line place) }
{}

/// A key at which all states have the same event keeps it: the resolved state has there what the unconflicted state has.
pub fn agreed_keys_stay()
    ensures { (events : List Stored) (states : List StateMap) (key : StateKey) (id : List ℕ) → finite.get (unconflicted states) key ≡ Some id → finite.get (resolved_of events states) key ≡ Some id }
{}

/// One state resolves to itself.
pub fn one_state_stays()
    ensures { (events : List Stored) (state : StateMap) → resolved_of events (state ∷ []) ≡ state }
{}

/// Where each of the states names stored events alone, so does the state that they resolve to.
pub fn resolved_states_name_stored_events()
    ensures { (events : List Stored) (states : List StateMap) → AllNameStored events states → NamesStored events (resolved_of events states) }
{}

/// The resolved state is by the states and the ancestry of the events that they name: events that are stored later change nothing.
pub fn later_events_change_nothing()
    ensures { (events more : List Stored) (states : List StateMap) → IsAuthGraph (events ++ more) → AllNameStored events states → resolved_of (events ++ more) states ≡ resolved_of events states }
{}

/// What the resolved state has at a key, one of the states has there, or it is an event of the full conflicted set, which stands at that
/// key.
pub fn entries_come_from_the_states()
    ensures { (events : List Stored) (states : List StateMap) (key : StateKey) (id : List ℕ) → finite.get (resolved_of events states) key ≡ Some id → SomeStateHas states key id ⊎ IsOfConflict events states key id }
{}

/// In which order the states are given, and how often one of them, makes no difference.
pub fn states_in_any_order()
    ensures { (events : List Stored) (states others : List StateMap) → AreSameStates states others → resolved_of events states ≡ resolved_of events others }
{}

/// The two lists by which events are checked are orders: each has the given places, each of them once, and each place may be listed
/// where it stands and comes first among those that may be listed there and are not listed before it. The power order is one in a graph.
pub fn lists_are_orders()
    ensures power { (events : List Stored) (places : List ℕ) → IsAuthGraph events → All (λ place. place < length events) places → IsPowerOrder events places }
    ensures mainline { (events : List Stored) (levels : Option ℕ) (places : List ℕ) → All (λ place. place < length events) places → IsMainlineOrder events levels places }
{}
