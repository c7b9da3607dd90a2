// Why an exchange has no reply.
ghost use Rattle.std.specs.Prelude.{◌≡◌};
ghost use Rattle.fed_connection.specs.declared.unanswered.Unanswered.TheVariants as unanswered;
ghost use Rattle.fed_http.specs.declared.fault.HttpFault.TheVariants as http;
ghost use Rattle.fed_stream.specs.declared.unread.Unread.TheVariants as unread;

use fed_http::HttpFault;
use fed_json::NoMemory;
use fed_stream::Unread;
use std::io;
use thiserror::Error;

/// Why an exchange has no reply. Nothing more can come over the connection.
#[derive(Clone, Copy, Debug, PartialEq, Eq, Error)]
pub enum Unanswered {
    /// The request was not written whole: a write failed, or took nothing.
    #[error("request not sent")]
    Unsent,
    /// The request was written, and no reply was read; or memory ran out.
    #[error("no reply: {0}")]
    Unread(Unread),
}

impl From<io::Error> for Unanswered {
    ghost from_gives = { λ _ why. why ≡ unanswered.Unsent };

    fn from(_error: io::Error) -> Unanswered {
        Unanswered::Unsent
    }
}

impl From<Unread> for Unanswered {
    ghost from_gives = { λ unread why. why ≡ unanswered.Unread unread };

    fn from(unread: Unread) -> Unanswered {
        Unanswered::Unread(unread)
    }
}

impl From<NoMemory> for Unanswered {
    ghost from_gives = { λ _ why. why ≡ unanswered.Unread (unread.Http http.Memory) };

    fn from(_error: NoMemory) -> Unanswered {
        Unanswered::Unread(Unread::Http(HttpFault::Memory))
    }
}
