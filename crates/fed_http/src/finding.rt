// Where a message ends in its bytes, found without memory.
ghost use Rattle.std.specs.Prelude.{◌≡◌, ◌≢◌, IfOk, IfSome, IfNone, IfErr, All, length, map};
ghost use Rattle.httparse.specs.Spans.{IsHeaderWithin, header_bytes};
ghost use Rattle.fed_http.specs.Framing.{framing_of};
ghost use Rattle.fed_http.specs.Limits.{max_fields};
ghost use Rattle.fed_http.specs.Faults.{IsFault};
ghost use Rattle.fed_http.specs.Waiting.{IsWaiting};
ghost use Rattle.fed_http.specs.FoundParts.{IsSomeFoundAt, IsBodyAt, LacksBody, IsBodyFault, IsFramedAs};
ghost use Rattle.fed_http.specs.KeepingParts.{IsFramedAt, LacksHead};

use crate::chunks::{Extent, find_chunked};
use crate::fault::HttpFault;
use crate::framing::{Framing, framing_of};
use crate::head::{HeadSpans, StartSpans, find_head};
use crate::limits::{MAX_BODY, MAX_HEAD, window};
use crate::message::Kind;
use httparse::spans::HeaderSpan;

/// Where the parts of a message are in its bytes.
#[derive(Clone, Copy)]
pub struct MessageSpans {
    pub head: HeadSpans,
    pub framing: Framing,
    pub body: Extent,
}

/// The message at the front of the bytes, whose fields are written to `fields`; `None` where it isn't whole yet.
///
/// # Errors
///
/// Each but `Memory` and `HasFailed`.
pub fn find_message(
    kind: Kind,
    bytes: &[u8],
    fields: &mut [HeaderSpan],
) -> Result<Option<MessageSpans>, HttpFault>
    requires room { length fields.old ≡ max_fields }
    ensures found { IfOk result (λ found. IfSome found (IsSomeFoundAt kind bytes.now fields.new)) }
    ensures waiting { IfOk result (λ found. IfNone found (IsWaiting kind bytes.now)) }
    ensures fault { IfErr result (λ fault. (fault ≢ HttpFault.Memory) × IsFault kind bytes.now fault) }
{
    let Some((head, framing)) = find_framed(kind, bytes, fields)? else {
        return Ok(None);
    };
    match find_body(framing, &bytes[head.len..])? {
        Some(body) => Ok(Some(MessageSpans {
            head,
            framing,
            body,
        })),
        None => Ok(None),
    }
}

/// The head at the front of the bytes, whose fields are written to `fields`, and how the end of its body is found; `None` where it isn't
/// whole yet.
///
/// # Errors
///
/// `BadHead`, `TooLarge` and `BadLength`.
pub fn find_framed(
    kind: Kind,
    bytes: &[u8],
    fields: &mut [HeaderSpan],
) -> Result<Option<(HeadSpans, Framing)>, HttpFault>
    requires room { length fields.old ≡ max_fields }
    ensures found { IfOk result (λ found. IfSome found (λ found. IsFramedAt kind bytes.now fields.new found.0 found.1)) }
    ensures unfinished { IfOk result (λ found. IfNone found (LacksHead kind bytes.now)) }
    ensures fault { IfErr result (λ fault. (fault ≢ HttpFault.Memory) × IsFault kind bytes.now fault) }
{
    let front = window(bytes);
    let Some(head) = find_head(kind, front, fields)? else {
        return if bytes.len() < MAX_HEAD {
            Ok(None)
        } else {
            Err(HttpFault::TooLarge)
        };
    };
    let framing = framing_of_head(front, &fields[..head.fields], head.start)?;
    Ok(Some((head, framing)))
}

// How the end of the body is found.
fn framing_of_head(
    bytes: &[u8],
    fields: &[HeaderSpan],
    start: StartSpans,
) -> Result<Framing, HttpFault>
    requires within { All (IsHeaderWithin (length bytes.now)) fields.now }
    ensures { IsFramedAs start (framing_of (map (header_bytes bytes.now) fields.now)) result }
{
    let framing = framing_of(bytes, fields);
    match start {
        StartSpans::Request { .. } => framing.ok_or(HttpFault::BadLength),
        StartSpans::Reply { status } if status < 200 => Err(HttpFault::BadHead),
        StartSpans::Reply { .. } => match framing {
            None | Some(Framing::NoBody) => Err(HttpFault::BadLength),
            Some(framing) => Ok(framing),
        },
    }
}

// Where the body at the front of the bytes ends.
fn find_body(framing: Framing, bytes: &[u8]) -> Result<Option<Extent>, HttpFault>
    ensures found { IfOk result (λ found. IfSome found (IsBodyAt framing bytes.now)) }
    ensures unfinished { IfOk result (λ found. IfNone found (LacksBody framing bytes.now)) }
    ensures fault { IfErr result (IsBodyFault framing bytes.now) }
{
    match framing {
        Framing::NoBody => Ok(Some(Extent { body: 0, text: 0 })),
        Framing::Fixed(size) if size > MAX_BODY as u64 => Err(HttpFault::TooLarge),
        Framing::Fixed(size) => {
            let size = size as usize;
            if bytes.len() < size {
                Ok(None)
            } else {
                Ok(Some(Extent {
                    body: size,
                    text: size,
                }))
            }
        }
        Framing::Chunked => find_chunked(bytes),
    }
}
