// The plain program of what a message of a stream is: all its bytes, read at once.
ghost use Rattle.std.specs.Prelude.{◌≡◌, ◌≢◌, ◌+◌, Err, IfOk, IfErr, IfSome, IfNone};
ghost use Rattle.fed_http.specs.CopyParts.{IsMessageAt, HasBody};
ghost use Rattle.fed_http.specs.Faults.{IsFault};
ghost use Rattle.fed_http.specs.declared.fault.HttpFault.{HttpFault};
ghost use Rattle.fed_http.specs.FoundParts.{IsSomeFoundAt, IsBodyAt};
ghost use Rattle.fed_http.specs.Waiting.{IsWaiting};

use crate::chunks::copy_chunks;
use crate::copying::copy_request;
use crate::fault::HttpFault;
use crate::finding::{MessageSpans, find_message};
use crate::framing::Framing;
use crate::head::StartSpans;
use crate::limits::{MAX_FIELDS, window};
use crate::message::{Kind, Message};
use crate::reply::Reply;
use fed_json::NoMemory;
use httparse::spans::{EMPTY_HEADER_SPAN, HeaderSpan};
use std::alloc::Global;

/// The message at the front of the bytes and how many bytes it has; `None` where it isn't whole yet.
///
/// This is the plain program of what `Reader` does for a stream: it looks at all bytes from the first one on.
///
/// # Errors
///
/// Each but `HasFailed`, as `Reader::feed` says them.
pub fn read_message(
    alloc: Global,
    kind: Kind,
    bytes: &[u8],
) -> Result<Option<(Message, usize)>, HttpFault>
    ensures read { IfOk result (λ read. IfSome read (λ read. IsMessageAt kind bytes.now read.0 read.1)) }
    ensures waiting { IfOk result (λ read. IfNone read (IsWaiting kind bytes.now)) }
    ensures fault { IfErr result (IsFault kind bytes.now) }
    ensures told { (fault : HttpFault) → fault ≢ HttpFault.Memory → IsFault kind bytes.now fault → result ≡ Err fault }
{
    let mut fields = [EMPTY_HEADER_SPAN; MAX_FIELDS];
    let Some(found) = find_message(kind, bytes, &mut fields)? else {
        return Ok(None);
    };
    let message = copy_message(alloc, kind, bytes, &fields, found)?;
    Ok(Some((message, found.head.len + found.body.text)))
}

// The message that was found.
fn copy_message(
    alloc: Global,
    kind: Kind,
    bytes: &[u8],
    fields: &[HeaderSpan],
    found: MessageSpans,
) -> Result<Message, NoMemory>
    requires found { IsSomeFoundAt kind bytes.now fields.now found }
    ensures message { IfOk result (λ message. IsMessageAt kind bytes.now message (found.head.len + found.body.text)) }
{
    let body = copy_body(alloc, found, &bytes[found.head.len..])?;
    let head = window(bytes);
    match found.head.start {
        StartSpans::Request { method, target } => {
            let request = copy_request(
                alloc,
                head,
                method,
                target,
                &fields[..found.head.fields],
                body,
            )?;
            Ok(Message::Request(request))
        }
        StartSpans::Reply { status } => Ok(Message::Reply(Reply::new(status, body))),
    }
}

// The body that was found.
fn copy_body(alloc: Global, found: MessageSpans, bytes: &[u8]) -> Result<Vec<u8>, NoMemory>
    requires body { IsBodyAt found.framing bytes.now found.body }
    ensures body { IfOk result (λ body. HasBody found.framing bytes.now found.body.text body.items) }
{
    match found.framing {
        Framing::NoBody => Ok(Vec::new(alloc)),
        Framing::Fixed(_) => Vec::from_slice(alloc, &bytes[..found.body.text]),
        Framing::Chunked => copy_chunks(alloc, bytes, found.body.body),
    }
}
