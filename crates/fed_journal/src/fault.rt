// Why a journal makes no room.
ghost use Rattle.std.specs.Prelude.{◌≡◌};
ghost use Rattle.fed_journal.specs.declared.fault.JournalFault.TheVariants.{Memory};

use fed_json::NoMemory;
use thiserror::Error;

/// Why a journal has no room for more entries.
#[derive(Clone, Copy, Debug, PartialEq, Eq, Error)]
pub enum JournalFault {
    /// Memory ran out.
    #[error("out of memory")]
    Memory,
    /// There would be more than `MAX_ENTRIES` entries.
    #[error("too many entries")]
    Limit,
}

impl From<NoMemory> for JournalFault {
    ghost from_gives = { λ _ e. e ≡ Memory };

    fn from(_error: NoMemory) -> JournalFault {
        JournalFault::Memory
    }
}
