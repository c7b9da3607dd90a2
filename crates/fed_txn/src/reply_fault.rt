// Why bytes are no reply.
ghost use Rattle.std.specs.Prelude.{◌≡◌};
ghost use Rattle.fed_txn.specs.declared.reply_fault.ReplyFault.TheVariants.{Memory};
ghost use Rattle.fed_txn.specs.ReplyReadingParts.{reply_fault_of};

use fed_json::{JsonFault, NoMemory};
use thiserror::Error;

/// Why bytes were not read as the reply to a transaction.
#[derive(Clone, Copy, Debug, PartialEq, Eq, Error)]
pub enum ReplyFault {
    /// Memory ran out.
    #[error("out of memory")]
    Memory,
    /// The bytes are no reply.
    #[error("no reply")]
    NotReply,
}

impl From<NoMemory> for ReplyFault {
    ghost from_gives = { λ _ fault. fault ≡ Memory };

    fn from(_error: NoMemory) -> ReplyFault {
        ReplyFault::Memory
    }
}

impl From<JsonFault> for ReplyFault {
    ghost from_gives = { λ given fault. fault ≡ reply_fault_of given };

    fn from(fault: JsonFault) -> ReplyFault {
        match fault {
            JsonFault::Memory => ReplyFault::Memory,
            JsonFault::NotJson => ReplyFault::NotReply,
            JsonFault::NotCanonicalValue => ReplyFault::NotReply,
            JsonFault::TooDeep => ReplyFault::NotReply,
        }
    }
}
