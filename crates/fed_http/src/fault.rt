// Why bytes are no message.
ghost use Rattle.std.specs.Prelude.{◌≡◌};
ghost use Rattle.fed_http.specs.declared.fault.HttpFault.TheVariants.{Memory};

use crate::reply::Reply;
use fed_json::NoMemory;
use std::alloc::AllocFailed;
use thiserror::Error;

/// Why bytes were not read as a message. After each but `Memory` nothing more can be read from the connection.
#[derive(Clone, Copy, Debug, PartialEq, Eq, Error)]
pub enum HttpFault {
    /// Memory ran out. The same bytes may be given again.
    #[error("out of memory")]
    Memory,
    /// The bytes begin with no head, a head or a trailer has more than `MAX_FIELDS` fields, or a reply's status is below 200.
    #[error("bad head")]
    BadHead,
    /// A head, a trailer or a body is over its limit.
    #[error("message too large")]
    TooLarge,
    /// The head says of its body's length nothing that is of one meaning (RFC 9112, section 6.3).
    #[error("bad length")]
    BadLength,
    /// The chunks of a body or their trailer are not as they have to be (RFC 9112, section 7.1).
    #[error("bad chunk")]
    BadChunk,
    /// An earlier call told of a fault.
    #[error("reader has failed")]
    HasFailed,
}

impl From<NoMemory> for HttpFault {
    ghost from_gives = { λ _ fault. fault ≡ Memory };

    fn from(_error: NoMemory) -> HttpFault {
        Self::Memory
    }
}

impl<T: Drop> From<AllocFailed<T>> for HttpFault {
    ghost from_gives = { λ _ fault. fault ≡ Memory };

    fn from(_error: AllocFailed<T>) -> HttpFault {
        Self::Memory
    }
}

impl From<HttpFault> for Reply {
    ghost use Rattle.std.specs.Prelude.{◌≡◌};
    ghost use Rattle.fed_http.specs.FaultReplies.{reply_to};

    ghost from_gives = { λ fault reply. reply ≡ reply_to fault };

    /// The error reply to bytes that were not read as a request. It is made without memory.
    fn from(fault: HttpFault) -> Reply {
        match fault {
            HttpFault::Memory => Reply::fixed(
                500,
                "{\"errcode\":\"M_UNKNOWN\",\"error\":\"out of memory\"}",
            ),
            HttpFault::TooLarge => Reply::fixed(
                413,
                "{\"errcode\":\"M_TOO_LARGE\",\"error\":\"body too large\"}",
            ),
            HttpFault::BadHead
            | HttpFault::BadLength
            | HttpFault::BadChunk
            | HttpFault::HasFailed => Reply::fixed(
                400,
                "{\"errcode\":\"M_UNKNOWN\",\"error\":\"bad request\"}",
            ),
        }
    }
}
