// Why an outbox does not accept a parcel.
ghost use Rattle.std.specs.Prelude.{◌≡◌};
ghost use Rattle.fed_outbox.specs.declared.fault.OutboxFault.TheVariants.{Memory};

use fed_json::NoMemory;
use thiserror::Error;

/// Why an outbox does not accept a parcel.
#[derive(Clone, Copy, Debug, PartialEq, Eq, Error)]
pub enum OutboxFault {
    /// Memory ran out.
    #[error("out of memory")]
    Memory,
    /// The parcel is for another destination, or has another number than the next, which is this one.
    #[error("the next parcel has number {0}")]
    WrongPlace(u64),
    /// An end was accepted: no more comes.
    #[error("the outbox has accepted an end")]
    Ended,
}

impl From<NoMemory> for OutboxFault {
    ghost from_gives = { λ _ fault. fault ≡ Memory };

    fn from(_: NoMemory) -> OutboxFault {
        OutboxFault::Memory
    }
}
