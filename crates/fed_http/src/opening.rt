// The head of a message, read to its owned parts.
ghost use Rattle.std.specs.Prelude.{take, IfOk, IfErr, IfSome, IfNone};
ghost use Rattle.fed_http.specs.Faults.{IsFault};
ghost use Rattle.fed_http.specs.Limits.{max_head};
ghost use Rattle.fed_http.specs.HeadParts.{IsSomeHeadAt};
ghost use Rattle.fed_http.specs.KeepingParts.{IsOpeningAt, LacksHead, IsMessageOf};

use crate::copying::copy_request;
use crate::fault::HttpFault;
use crate::finding::find_framed;
use crate::framing::Framing;
use crate::head::{HeadSpans, StartSpans};
use crate::limits::{MAX_FIELDS, window};
use crate::message::{Kind, Message};
use crate::reply::Reply;
use fed_json::NoMemory;
use httparse::spans::{EMPTY_HEADER_SPAN, HeaderSpan};
use std::alloc::Global;

/// A head that is whole: its message, which has no body yet, how the end of the body is found, and how many bytes the head has.
#[derive(Drop)]
pub struct Opening {
    pub message: Message,
    pub framing: Framing,
    pub len: usize,
}

/// The head at the front of the bytes; `None` where it isn't whole yet.
///
/// # Errors
///
/// `Memory`, `BadHead`, `TooLarge` and `BadLength`.
pub fn read_head(alloc: Global, kind: Kind, bytes: &[u8]) -> Result<Option<Opening>, HttpFault>
    ensures opening { IfOk result (λ found. IfSome found (IsOpeningAt kind bytes.now)) }
    ensures unfinished { IfOk result (λ found. IfNone found (LacksHead kind bytes.now)) }
    ensures fault { IfErr result (IsFault kind bytes.now) }
{
    let mut fields = [EMPTY_HEADER_SPAN; MAX_FIELDS];
    let Some((head, framing)) = find_framed(kind, bytes, &mut fields)? else {
        return Ok(None);
    };
    let message = copy_head(alloc, kind, bytes, &fields, head)?;
    Ok(Some(Opening {
        message,
        framing,
        len: head.len,
    }))
}

// The message of the head that was found, without its body.
fn copy_head(
    alloc: Global,
    kind: Kind,
    bytes: &[u8],
    fields: &[HeaderSpan],
    head: HeadSpans,
) -> Result<Message, NoMemory>
    requires found { IsSomeHeadAt kind (take max_head bytes.now) fields.now head }
    ensures { IfOk result (IsMessageOf kind (take max_head bytes.now) fields.now head) }
{
    let front = window(bytes);
    let body = Vec::new(alloc);
    match head.start {
        StartSpans::Request { method, target } => {
            let request = copy_request(alloc, front, method, target, &fields[..head.fields], body)?;
            Ok(Message::Request(request))
        }
        StartSpans::Reply { status } => Ok(Message::Reply(Reply::new(status, body))),
    }
}
