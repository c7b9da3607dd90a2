// A reader of a stream of messages.
ghost use Rattle.std.specs.Prelude.{◌≡◌, ◌≢◌, ◌+◌, ◌≤◌, [], ◌++◌, List, ℕ, length, true, false, Ok, Err, IfOk, IfSome, IfNone};
ghost use Rattle.fed_http.specs.Faults.{IsFault, IsBadHead, IsTooLarge, IsBadLength, IsBadChunk};
ghost use Rattle.fed_http.specs.declared.fault.HttpFault.{HttpFault};
ghost use Rattle.fed_http.specs.Reader.{StandsFor, Gives, Waits, Fails, Stays, TellsOf};

use crate::fault::HttpFault;
use crate::message::{Kind, Message};
use crate::state::State;
use std::alloc::Global;
use std::marker::Model;

/// Reads the messages of a stream that comes in pieces.
///
/// - A head is that of HTTP/1.0 or 1.1 (RFC 9112, sections 2 to 5): at most `MAX_HEAD` bytes and `MAX_FIELDS` fields. A reply's status is
///   at least 200 (RFC 9110, section 15.2).
/// - A body is framed by one Content-Length of at most `MAX_LENGTH_DIGITS` digits, or by one Transfer-Encoding that is `chunked`; names
///   and codings in any case. A request with neither has no body (RFC 9112, section 6.3).
/// - Of chunks the extensions are dropped, and so is the trailer, whose limits are those of a head (section 7.1). A chunk line has at
///   most `MAX_HEAD` bytes. A body has at most `MAX_BODY`.
///
/// Of the bytes since the last message it keeps the head so far, and once this is whole only its parts, as a message has them; the body so far;
/// and a chunk line or a trailer that has not ended. `held` says how many bytes these are. One that has failed keeps no memory. It looks at each
/// byte a few times, in whatever pieces they come, and at none past a limit. For a body in chunks it takes memory for as many bytes as the piece
/// has, or for as many as the body may still have, if these are fewer.
///
/// Contracts say of what it is given by the bytes that it stands for: those since it was made, or since it last gave a message. Some such
/// bytes there are until it has failed.
#[derive(Drop)]
pub struct Reader {
    kind: Kind,
    state: State,
    has_failed: bool,
}

impl Model for Reader {
    ghost use Rattle.fed_http.specs.Reader.{Reading};
    ghost use Rattle.fed_http.specs.KeepingParts.{kept_of, IsReading};

    ghost Value = { Reading };

    ghost view = { λ r. record { kind = r.kind; kept = kept_of r.state; has_failed = r.has_failed } };

    ghost invariant = { λ r. IsReading r.kind r.state r.has_failed };
}

impl Reader {
    /// A reader of requests, at the beginning of a stream.
    pub fn requests(alloc: Global) -> Reader
        ensures kind { result.kind ≡ Kind.Requests }
        ensures stands { StandsFor result [] }
    {
        Reader {
            kind: Kind::Requests,
            state: State::new(alloc),
            has_failed: false,
        }
    }

    /// A reader of replies, at the beginning of a stream.
    pub fn replies(alloc: Global) -> Reader
        ensures kind { result.kind ≡ Kind.Replies }
        ensures stands { StandsFor result [] }
    {
        Reader {
            kind: Kind::Replies,
            state: State::new(alloc),
            has_failed: false,
        }
    }

    /// Whether an earlier call told of a fault. Where none did, the reader stands for some bytes.
    pub fn has_failed(&self) -> bool
        ensures failed { result ≡ self.now.has_failed }
        ensures stands { self.now.has_failed ≡ false → (bytes : List ℕ) × StandsFor self.now bytes }
    {
        self.has_failed
    }

    /// The message that the bytes up to some of this piece are the text of, and how many bytes of the piece these are. Where no message
    /// is whole yet, `None` and all bytes of the piece.
    ///
    /// # Errors
    ///
    /// `Memory` where memory ran out: the reader stands for the same bytes as before, and the piece may be given again. Where the bytes can
    /// begin no message, and each later call answers `HasFailed`:
    ///
    /// - `BadHead`: whatever follows, no head with at most `MAX_FIELDS` fields is at the front; or a reply's status is below 200; or a
    ///   trailer has more than `MAX_FIELDS` fields.
    /// - `TooLarge`: a head or a trailer does not end in its `MAX_HEAD` bytes; or the length that the head gives, or the chunks
    ///   together, are over `MAX_BODY`.
    /// - `BadLength`: the head gives several lengths or codings, both, another coding, or no number; or it is a reply's and gives none.
    /// - `BadChunk`: a chunk line is none or too long, something else than CR LF follows a chunk, or the trailer is no field section.
    pub fn feed(
        &mut self,
        alloc: Global,
        piece: &[u8],
    ) -> Result<(Option<Message>, usize), HttpFault>
        ensures given { (bytes : List ℕ) → StandsFor self.old bytes → IfOk result (λ fed. IfSome fed.0 (λ m. Gives self.old bytes piece.now self.new m fed.1)) }
        ensures waits { (bytes : List ℕ) → StandsFor self.old bytes → IfOk result (λ fed. IfNone fed.0 (Waits self.old bytes piece.now self.new fed.1)) }
        ensures memory { result ≡ Err HttpFault.Memory → Stays self.old self.new }
        ensures bad_head { (bytes : List ℕ) → StandsFor self.old bytes → result ≡ Err HttpFault.BadHead → Fails IsBadHead self.old bytes piece.now self.new }
        ensures too_large { (bytes : List ℕ) → StandsFor self.old bytes → result ≡ Err HttpFault.TooLarge → Fails IsTooLarge self.old bytes piece.now self.new }
        ensures bad_length { (bytes : List ℕ) → StandsFor self.old bytes → result ≡ Err HttpFault.BadLength → Fails IsBadLength self.old bytes piece.now self.new }
        ensures bad_chunk { (bytes : List ℕ) → StandsFor self.old bytes → result ≡ Err HttpFault.BadChunk → Fails IsBadChunk self.old bytes piece.now self.new }

        // Of bytes that have a fault, it is told, or want of memory.
        ensures told { (bytes : List ℕ) (fault : HttpFault) → StandsFor self.old bytes → fault ≢ HttpFault.Memory → IsFault self.old.kind (bytes ++ piece.now) fault → TellsOf fault result }

        // A reader that has failed says so, without memory.
        ensures failed { self.old.has_failed ≡ true → (result ≡ Err HttpFault.HasFailed) × (self.new ≡ self.old) }
        ensures only_failed { result ≡ Err HttpFault.HasFailed → self.old.has_failed ≡ true }
    {
        if self.has_failed {
            return Err(HttpFault::HasFailed);
        }
        match self.state.take(alloc, self.kind, piece) {
            Ok(Some(used)) => Ok((Some(self.state.give(alloc)), used)),
            Ok(None) => Ok((None, piece.len())),
            Err(fault) if fault == HttpFault::Memory => Err(HttpFault::Memory),
            Err(fault) => {
                self.has_failed = true;
                self.state.let_go(alloc);
                Err(fault)
            }
        }
    }

    /// How many bytes of the stream are kept: those of the head, which is kept once, as bytes or as its parts; of the body so far; and of the
    /// last chunk line or a trailer that has not ended. They are at most 16,809,984: `MAX_BODY` and twice `MAX_HEAD`.
    pub fn held(&self) -> usize
        ensures kept { result ≡ self.now.kept.head + (length self.now.kept.text + length self.now.kept.body) }
        ensures bound { result ≤ 16809984 }
    {
        self.state.held()
    }
}
