// How a state of a room is kept.
ghost use Rattle.std.specs.Prelude.{◌≡◌};
ghost use Rattle.fed_room_contract.specs.StepParts.{above_of, base_of, bits_of};

use crate::change::Change;
use crate::state::State;

/// How many changes at most are laid over a whole state, one over the other.
pub(crate) const MAX_ABOVE: usize = 31;

/// How a state is kept.
#[derive(Drop)]
pub(crate) enum Step {
    /// As the state at a place, which is laid or whole.
    Same { parent: usize },
    /// As the state at a place, which is laid or whole, with changes.
    Laid(Laid),
    /// Whole.
    Whole(Whole),
}

/// Changes of the state at a place.
#[derive(Drop)]
pub(crate) struct Over {
    pub(crate) parent: usize,
    pub(crate) changes: Vec<Change>,
}

/// Changes of the state at a place. So many are laid with them over the whole state at the place `base`, and `bits` has the bit of the tag of
/// each of them.
#[derive(Drop)]
pub(crate) struct Laid {
    pub(crate) over: Over,
    pub(crate) base: usize,
    pub(crate) above: usize,
    pub(crate) bits: u64,
}

/// A whole state, and of which earlier one it came by which changes, where it did.
#[derive(Drop)]
pub(crate) struct Whole {
    pub(crate) state: State,
    pub(crate) over: Option<Over>,
}

impl Step {
    /// How many changes are laid over a whole state.
    pub(crate) fn above(&self) -> usize
        ensures { result ≡ above_of self.now }
    {
        match self {
            Step::Laid(laid) => laid.above,
            Step::Same { .. } | Step::Whole(_) => 0,
        }
    }

    /// The place of the whole state over which changes are laid; of a step that is none of them, its own place.
    pub(crate) fn base(&self, place: usize) -> usize
        ensures { result ≡ base_of place self.now }
    {
        match self {
            Step::Laid(laid) => laid.base,
            Step::Same { .. } | Step::Whole(_) => place,
        }
    }

    /// The bits of the tags of the changes that are laid over a whole state.
    pub(crate) fn bits(&self) -> u64
        ensures { result ≡ bits_of self.now }
    {
        match self {
            Step::Laid(laid) => laid.bits,
            Step::Same { .. } | Step::Whole(_) => 0,
        }
    }
}
