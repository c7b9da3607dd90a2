// From a reply to a writer, without memory.
ghost use Rattle.std.specs.Prelude.{◌≡◌, ◌≢◌, IfErr};
ghost use Rattle.std.specs.IoError.{error_kind};
ghost use Rattle.fed_http.specs.Sending.{WritesWhole};
ghost use Rattle.fed_http.specs.Writing.{reply_bytes, reply_bytes_to, reply_head};

use crate::front::Front;
use crate::reply::Reply;
use crate::writing::phrase;
use std::io;
use std::io::{ErrorKind, Write};

/// Writes the bytes of a reply, which are those of `write_reply`, without memory. It does not flush. A reply of at most 1,024 bytes is one write,
/// where the writer takes all that it is given; of a longer one the first 1,024 are, and then all the others.
///
/// # Errors
///
/// That of the write that failed, which is never `Interrupted`; `WriteZero` where the writer takes nothing, and `TimedOut` where it is interrupted
/// without end. What was written is a front of the bytes.
pub fn send_reply<W: Write>(writer: &mut W, reply: &Reply) -> io::Result<()>
    ensures written { WritesWhole (W.contents writer.old) (W.contents writer.new) (reply_bytes reply.now) result }
    ensures made_again { IfErr result (λ error. error_kind error ≢ ErrorKind.Interrupted) }
{
    let mut front = head_of(reply);
    let body = reply.body();
    let taken = front.push_some(body);
    write_whole(writer, front.as_slice())?;
    write_whole(writer, &body[taken..])
}

/// Writes the reply to a request of this method: to a HEAD the head alone, which is that of the whole reply (RFC 9110, section 9.3.2), and to any
/// other all of it, as `send_reply` does.
///
/// # Errors
///
/// Those of `send_reply`.
pub fn send_reply_to<W: Write>(writer: &mut W, method: &str, reply: &Reply) -> io::Result<()>
    ensures written { WritesWhole (W.contents writer.old) (W.contents writer.new) (reply_bytes_to method.now reply.now) result }
    ensures made_again { IfErr result (λ error. error_kind error ≢ ErrorKind.Interrupted) }
{
    if method == "HEAD" {
        return write_whole(writer, head_of(reply).as_slice());
    }
    send_reply(writer, reply)
}

// The bytes of a reply up to its body.
fn head_of(reply: &Reply) -> Front
    ensures { result ≡ reply_head reply.now }
{
    let mut status = itoa::Buffer::new();
    let mut length = itoa::Buffer::new();
    let mut head = Front::new();
    head.push(b"HTTP/1.1 ");
    head.push(status.format(reply.status()).as_bytes());
    head.push(b" ");
    head.push(phrase(reply.status()).as_bytes());
    head.push(b"\r\nContent-Type: application/json\r\nContent-Length: ");
    head.push(length.format(reply.body().len()).as_bytes());
    head.push(b"\r\nConnection: close\r\n\r\n");
    head
}

/// Writes all the bytes. Unlike `write_all` it says what was written where a write fails. A turn writes a byte or is interrupted, and no
/// writer is interrupted so often that the loop ends without an answer.
///
/// # Errors
///
/// That of the write that failed, which is never `Interrupted`; `WriteZero` where the writer takes nothing, and `TimedOut` where it is interrupted
/// without end. What was written is a front of the bytes.
pub fn write_whole<W: Write>(writer: &mut W, bytes: &[u8]) -> io::Result<()>
    ensures written { WritesWhole (W.contents writer.old) (W.contents writer.new) bytes.now result }
    ensures made_again { IfErr result (λ error. error_kind error ≢ ErrorKind.Interrupted) }
{
    let mut rest = bytes;
    for _ in 0..u64::MAX {
        if rest.is_empty() {
            return Ok(());
        }
        match writer.write(rest) {
            Ok(0) => return Err(io::Error::from(ErrorKind::WriteZero)),
            Ok(written) => rest = &rest[written..],
            Err(error) => {
                if error.kind() != ErrorKind::Interrupted {
                    return Err(error);
                }
            }
        }
    }
    Err(io::Error::from(ErrorKind::TimedOut))
}
