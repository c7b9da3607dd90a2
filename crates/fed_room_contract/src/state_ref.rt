// A state that is looked up in.
ghost use Rattle.std.specs.Prelude.{◌≡◌, option_map, IfOk};
ghost use Rattle.fed_room_contract.specs.State.{entry_at};
ghost use Rattle.fed_room_contract.specs.StateRef.{seen};

use crate::state::State;
use crate::steps::Steps;
use fed_event::EventId;

/// A state of a room, to look up in: a whole one, or one of the states that are kept by earlier ones, at its place.
#[derive(Clone, Copy)]
pub enum StateRef<'a> {
    Whole(&'a State),
    Kept(&'a Steps, usize),
}

impl<'a> StateRef<'a> {
    /// The id of the event that holds at a type and state key. At a place where no state is kept none holds.
    pub fn get(self, kind: &str, state_key: &str) -> Option<&'a EventId>
        ensures { option_map (λ id. id.now) result ≡ entry_at (seen self.entry) kind.now state_key.now }
    {
        match self {
            StateRef::Whole(state) => state.get(kind, state_key),
            StateRef::Kept(steps, place) => steps.get(place, kind, state_key),
        }
    }
}
