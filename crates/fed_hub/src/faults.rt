// Why a hub refuses what it is asked.
ghost use Rattle.std.specs.Prelude.{◌≡◌};
ghost use Rattle.fed_hub.specs.Faults.{send_fault_of, edu_fault_told};
ghost use Rattle.fed_hub.specs.declared.faults.SendFault.TheVariants as send;
ghost use Rattle.fed_hub.specs.declared.faults.EduFault.TheVariants as edu;
ghost use Rattle.fed_hub.specs.declared.faults.FinishFault.TheVariants as finish;
ghost use Rattle.fed_hub.specs.declared.faults.HubFault.TheVariants as hub;

use fed_event::PduFault;
use fed_json::NoMemory;
use fed_room_contract::{Refusal, Rule};
use thiserror::Error;

/// Why an event is not sent.
#[derive(Clone, Copy, Debug, PartialEq, Eq, Error)]
pub enum SendFault {
    /// Memory ran out.
    #[error("out of memory")]
    Memory,
    /// The hub has no room of this id.
    #[error("unknown room")]
    UnknownRoom,
    /// By this rule the room would not accept it.
    #[error("rule {0}")]
    NotAllowed(Rule),
    /// The hub is shut down.
    #[error("shut down")]
    ShutDown,
    /// The sender is no user of the own server.
    #[error("not own user")]
    NotOwnUser,
    /// What the draft makes is no event.
    #[error("bad draft: {0}")]
    BadDraft(PduFault),
    /// The journal would have more than `MAX_ENTRIES` entries.
    #[error("too many entries")]
    Limit,
}

impl From<NoMemory> for SendFault {
    ghost from_gives = { λ _ told. told ≡ send.Memory };

    fn from(_error: NoMemory) -> SendFault {
        SendFault::Memory
    }
}

impl From<Refusal> for SendFault {
    ghost from_gives = { λ refusal told. told ≡ send_fault_of refusal };

    fn from(refusal: Refusal) -> SendFault {
        match refusal {
            Refusal::Memory => SendFault::Memory,
            Refusal::NotOwnUser => SendFault::NotOwnUser,
            Refusal::BadDraft(fault) => SendFault::BadDraft(fault),
            Refusal::NotAllowed(rule) => SendFault::NotAllowed(rule),
        }
    }
}

/// Why an ephemeral data unit is not offered.
#[derive(Clone, Copy, Debug, PartialEq, Eq, Error)]
pub enum EduFault {
    /// Memory ran out.
    #[error("out of memory")]
    Memory,
    /// It is no object with a text `edu_type` and an object `content`.
    #[error("bad edu")]
    BadEdu,
    /// Its canonical text has over `MAX_EDU` bytes.
    #[error("edu too large")]
    TooLarge,
    /// It nests more than `MAX_EDU_DEPTH` levels.
    #[error("edu too deep")]
    TooDeep,
    /// The hub is shut down.
    #[error("shut down")]
    ShutDown,
    /// The journal would have more than `MAX_ENTRIES` entries.
    #[error("too many entries")]
    Limit,
}

impl From<NoMemory> for EduFault {
    ghost from_gives = { λ _ told. told ≡ edu.Memory };

    fn from(_error: NoMemory) -> EduFault {
        EduFault::Memory
    }
}

impl From<fed_journal::EduFault> for EduFault {
    ghost from_gives = { λ fault told. told ≡ edu_fault_told fault };

    fn from(fault: fed_journal::EduFault) -> EduFault {
        match fault {
            fed_journal::EduFault::BadEdu => EduFault::BadEdu,
            fed_journal::EduFault::TooLarge => EduFault::TooLarge,
            fed_journal::EduFault::TooDeep => EduFault::TooDeep,
        }
    }
}

/// Why there is no hub.
#[derive(Clone, Copy, Debug, PartialEq, Eq, Error)]
pub enum HubFault {
    /// Memory ran out.
    #[error("out of memory")]
    Memory,
    /// The own server is not listed, is the only one listed or is not the one that the keys sign as, or two rooms have one id.
    #[error("bad setup")]
    BadSetup,
}

impl From<NoMemory> for HubFault {
    ghost from_gives = { λ _ told. told ≡ hub.Memory };

    fn from(_error: NoMemory) -> HubFault {
        HubFault::Memory
    }
}

/// Why a hub is not at its end.
#[derive(Clone, Copy, Debug, PartialEq, Eq, Error)]
pub enum FinishFault {
    /// Memory ran out.
    #[error("out of memory")]
    Memory,
    /// A token of the hub is not among those that were given.
    #[error("a token is missing")]
    Missing,
    /// The hub is not shut down.
    #[error("not shut down")]
    NotShutDown,
    /// What lay under the locks and what the threads hold do not fit together.
    #[error("unequal")]
    Unequal,
}

impl From<NoMemory> for FinishFault {
    ghost from_gives = { λ _ told. told ≡ finish.Memory };

    fn from(_error: NoMemory) -> FinishFault {
        FinishFault::Memory
    }
}
