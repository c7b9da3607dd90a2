// The state before an event that is prepared.
ghost use Rattle.std.specs.Arc.{arc_value};
ghost use Rattle.std.specs.Prelude.{◌≡◌, IfOk};
ghost use Rattle.fed_room.specs.StatesParts.{before_seen, IsThereBefore};

use fed_json::NoMemory;
use fed_room_contract::{State, Steps};
use std::alloc::Global;
use std::sync::Arc;

/// The state before an event, beside the states that are kept: the one at a place, or another.
#[derive(Drop)]
pub(crate) enum Before {
    Kept(usize),
    Made(State),
}

impl Before {
    /// The state, to share: one that is kept is not copied anew for each event that follows it.
    ///
    /// # Errors
    ///
    /// `NoMemory`.
    pub(crate) fn share(self, alloc: Global, states: &mut Steps) -> Result<Arc<State>, NoMemory>
        requires { IsThereBefore states.old.after self }
        ensures same { states.new ≡ states.old }
        ensures state { IfOk result (λ state. arc_value state ≡ before_seen states.old.after self) }
    {
        match self {
            Before::Kept(place) => states.share(alloc, place),
            Before::Made(state) => Ok(Arc::new(alloc, state)?),
        }
    }
}
