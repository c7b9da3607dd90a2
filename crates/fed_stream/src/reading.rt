// From a reader to its next message.
ghost use Rattle.std.specs.Prelude.{◌≡◌, ◌≢◌, [], Err, IfOk, IfErr, vec_len};
ghost use Rattle.fed_http.specs.Reader.{StandsFor};
ghost use Rattle.fed_stream.specs.Reading.{Reads, IsUnread};

use crate::unread::Unread;
use fed_http::{HttpFault, Kind, Message, Reader, Reply, Request};
use std::alloc::Global;
use std::io::{ErrorKind, Read};

/// How often a reader is asked for one message, so that one that is interrupted without end is given up.
pub const MAX_READS: u64 = 40_000_000;

// The most bytes that are read at once.
const PIECE: usize = 65_536;

/// The next request of a reader (RFC 9112, section 3), which is at the beginning of one. `fed_http::Reader` says what it may be, and what its
/// limits are.
///
/// The reader is asked for at most 65,536 bytes at a time, and for none once the request is whole: on a connection that stays open (section
/// 9.3) more may never come. What came behind it in the same piece is dropped. A read that was interrupted is made again.
///
/// # Errors
///
/// - `Http`: the bytes have this fault since the last piece, so that no message can come of them; or memory ran out. It is never `HasFailed`.
/// - `EndedEarly`: the reader gave all its bytes, and they are an incomplete request (section 8), or none.
/// - `Read`: a read failed, or no request is whole after `MAX_READS` reads, of which each that was interrupted is one.
pub fn read_request<R: Read>(alloc: Global, from: &mut R) -> Result<Request, Unread>
    ensures reads { IfOk result (λ request. Reads Kind.Requests (R.remaining from.old) (R.remaining from.new) (Message.Request request)) }
    ensures unread { IfErr result (λ why. IsUnread Kind.Requests (R.remaining from.old) (R.remaining from.new) why) }
    ensures live { result ≢ Err (Unread.Http HttpFault.HasFailed) }
{
    match read_message(alloc, Reader::requests(alloc), from)? {
        Message::Request(request) => Ok(request),
        Message::Reply(_) => unreachable!(),
    }
}

/// The next reply of a reader (RFC 9112, section 4), which is at the beginning of one. `fed_http::Reader` says what it may be, and what its
/// limits are.
///
/// The reader is asked for at most 65,536 bytes at a time, and for none once the reply is whole: on a connection that stays open (section
/// 9.3) more may never come. What came behind it in the same piece is dropped. A read that was interrupted is made again.
///
/// # Errors
///
/// - `Http`: the bytes have this fault since the last piece, so that no message can come of them; or memory ran out. It is never `HasFailed`.
/// - `EndedEarly`: the reader gave all its bytes, and they are an incomplete reply (section 8), or none.
/// - `Read`: a read failed, or no reply is whole after `MAX_READS` reads, of which each that was interrupted is one.
pub fn read_reply<R: Read>(alloc: Global, from: &mut R) -> Result<Reply, Unread>
    ensures reads { IfOk result (λ reply. Reads Kind.Replies (R.remaining from.old) (R.remaining from.new) (Message.Reply reply)) }
    ensures unread { IfErr result (λ why. IsUnread Kind.Replies (R.remaining from.old) (R.remaining from.new) why) }
    ensures live { result ≢ Err (Unread.Http HttpFault.HasFailed) }
{
    match read_message(alloc, Reader::replies(alloc), from)? {
        Message::Reply(reply) => Ok(reply),
        Message::Request(_) => unreachable!(),
    }
}

// The message that is whole first. Nothing is read behind the piece that ends it.
fn read_message<R: Read>(alloc: Global, mut reader: Reader, from: &mut R) -> Result<Message, Unread>
    requires { StandsFor reader [] }
    ensures reads { IfOk result (λ message. Reads reader.kind (R.remaining from.old) (R.remaining from.new) message) }
    ensures unread { IfErr result (λ why. IsUnread reader.kind (R.remaining from.old) (R.remaining from.new) why) }
{
    let mut buffer = piece_buffer(alloc)?;
    for _ in 0..MAX_READS {
        match from.read(&mut buffer) {
            Ok(0) => return Err(Unread::EndedEarly),
            Ok(count) => {
                let (message, _) = reader.feed(alloc, &buffer[..count])?;
                if let Some(message) = message {
                    return Ok(message);
                }
            }
            Err(error) => {
                if error.kind() != ErrorKind::Interrupted {
                    return Err(Unread::Read);
                }
            }
        }
    }
    Err(Unread::Read)
}

// Room for one piece.
fn piece_buffer(alloc: Global) -> Result<Vec<u8>, HttpFault>
    ensures room { IfOk result (λ buffer. vec_len buffer ≡ 65536) }
    ensures memory { IfErr result (λ fault. fault ≡ HttpFault.Memory) }
{
    let mut buffer = Vec::new(alloc);
    buffer.resize(PIECE, 0)?;
    Ok(buffer)
}
