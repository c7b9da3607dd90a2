// Why no message was read.
ghost use Rattle.std.specs.Prelude.{◌≡◌};
ghost use Rattle.fed_stream.specs.declared.unread.Unread.TheVariants.{Http};

use fed_http::HttpFault;
use thiserror::Error;

/// Why no message was read off a reader. What was read is lost, so nothing more can be read from the connection.
#[derive(Clone, Copy, Debug, PartialEq, Eq, Error)]
pub enum Unread {
    /// The bytes that came have this fault, or memory ran out. It is never `HasFailed`.
    #[error("{0}")]
    Http(HttpFault),
    /// The input ended before a message was whole (RFC 9112, section 8). An empty one does.
    #[error("input ended early")]
    EndedEarly,
    /// A read failed, or the reader was asked `MAX_READS` times.
    #[error("read failed")]
    Read,
}

impl From<HttpFault> for Unread {
    ghost from_gives = { λ fault why. why ≡ Http fault };

    fn from(fault: HttpFault) -> Unread {
        Self::Http(fault)
    }
}
