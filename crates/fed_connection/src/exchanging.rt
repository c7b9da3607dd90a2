// A request to a writer, and its reply off a reader.
ghost use Rattle.std.specs.Prelude.{◌≡◌, ◌≢◌, Err, IfOk, IfErr};
ghost use Rattle.std.specs.Io.KnownBytes.{Appends};
ghost use Rattle.fed_connection.specs.Exchanging.{IsReplyRead, IsUnanswered};

use crate::unanswered::Unanswered;
use fed_http::{HttpFault, write_reply, write_whole};
use fed_stream::{Unread, read_reply};
use std::alloc::Global;
use std::io::{Read, Write};

/// Writes the bytes of a request, and reads the reply to it (RFC 9112, section 9.3). It gives the bytes of the reply as `write_reply` writes
/// them, with the status and the body that were read. It does not flush, and reads nothing before the request is written whole.
///
/// # Errors
///
/// - `Unsent`: a front of the request was written, and nothing was read.
/// - `Unread`: the request was written, and no reply was read, as `read_reply` tells; or memory ran out, which is `Http` of `Memory`.
pub fn exchange<R: Read, W: Write>(
    alloc: Global,
    reader: &mut R,
    writer: &mut W,
    request: &[u8],
) -> Result<Vec<u8>, Unanswered>
    ensures sent { IfOk result (λ _. Appends (W.contents writer.old) (W.contents writer.new) request.now) }
    ensures reply { IfOk result (λ bytes. IsReplyRead (R.remaining reader.old) (R.remaining reader.new) bytes.items) }
    ensures unanswered { IfErr result (λ why. IsUnanswered request.now (W.contents writer.old) (W.contents writer.new) (R.remaining reader.old) (R.remaining reader.new) why) }
    ensures live { result ≢ Err (Unanswered.Unread (Unread.Http HttpFault.HasFailed)) }
{
    write_whole(writer, request)?;
    let reply = read_reply(alloc, reader)?;
    Ok(write_reply(alloc, &reply)?)
}
