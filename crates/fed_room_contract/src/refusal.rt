// Why no event is made of a draft.
ghost use Rattle.std.specs.Prelude.{◌≡◌};
ghost use Rattle.fed_room_contract.specs.declared.refusal.Refusal.TheVariants.{Memory};

use crate::rule::Rule;
use fed_event::PduFault;
use fed_json::NoMemory;
use thiserror::Error;

/// Why no event is made of a draft.
#[derive(Clone, Copy, Debug, PartialEq, Eq, Error)]
pub enum Refusal {
    /// Memory ran out.
    #[error("out of memory")]
    Memory,
    /// The sender is no user of the own server.
    #[error("not own user")]
    NotOwnUser,
    /// What the draft makes is no event.
    #[error("bad draft: {0}")]
    BadDraft(PduFault),
    /// By this rule the room would not accept it.
    #[error("rule {0}")]
    NotAllowed(Rule),
}

impl From<NoMemory> for Refusal {
    ghost from_gives = { λ _ e. e ≡ Memory };

    fn from(_error: NoMemory) -> Refusal {
        Self::Memory
    }
}

impl From<PduFault> for Refusal {
    ghost use Rattle.fed_room_contract.specs.Prepared.{refusal_of};

    ghost from_gives = { λ fault e. e ≡ refusal_of fault };

    fn from(fault: PduFault) -> Refusal {
        match fault {
            PduFault::Memory => Self::Memory,
            fault => Self::BadDraft(fault),
        }
    }
}
