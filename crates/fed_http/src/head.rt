// Where the head of a message is.
ghost use Rattle.std.specs.Prelude.{◌≡◌, ◌↔◌, ◌≤◌, suc, length, IsTrue, IfOk, IfSome, IfNone, IfErr};
ghost use Rattle.fed_http.specs.Limits.{max_head, max_fields};
ghost use Rattle.fed_http.specs.HeadParts.{IsSomeHeadAt};
ghost use Rattle.fed_http.specs.Faults.{HasTooManyFields};
ghost use Rattle.fed_http.specs.Lines.{head_lines};
ghost use Rattle.fed_http.specs.Unfinished.{IsUnfinishedHead};

use crate::fault::HttpFault;
use crate::limits::MAX_FIELDS;
use crate::message::Kind;
use crate::unfinished::{ends_in_target, head_lines};
use httparse::Status;
use httparse::spans::{HeaderSpan, Span, parse_request, parse_response};

/// Where the parts of a head are in its bytes.
#[derive(Clone, Copy)]
pub struct HeadSpans {
    pub start: StartSpans,
    /// How many fields it has.
    pub fields: usize,
    /// How many bytes it has.
    pub len: usize,
}

/// Where the parts of the first line are, and what it says.
#[derive(Clone, Copy)]
pub enum StartSpans {
    Request { method: Span, target: Span },
    Reply { status: u16 },
}

/// The head at the front of the bytes, whose fields are written to `fields`; `None` where it isn't whole yet.
///
/// # Errors
///
/// `BadHead` where no head with so few fields can be there, whatever bytes follow. What `httparse` leaves open is decided here: of a head
/// that has too many lines and no end, and of one that ends inside its target.
pub fn find_head(
    kind: Kind,
    bytes: &[u8],
    fields: &mut [HeaderSpan],
) -> Result<Option<HeadSpans>, HttpFault>
    requires few { length bytes.now ≤ max_head }
    requires room { length fields.old ≡ max_fields }
    ensures found { IfOk result (λ found. IfSome found (IsSomeHeadAt kind bytes.now fields.new)) }
    ensures unfinished { IfOk result (λ found. IfNone found (IsUnfinishedHead kind bytes.now)) }
    ensures bad { IfErr result (λ fault. (fault ≡ HttpFault.BadHead) × HasTooManyFields kind bytes.now × ¬ (IsUnfinishedHead kind bytes.now)) }
{
    match kind {
        Kind::Requests => find_request(bytes, fields),
        Kind::Replies => find_reply(bytes, fields),
    }
}

fn find_request(bytes: &[u8], fields: &mut [HeaderSpan]) -> Result<Option<HeadSpans>, HttpFault>
    requires few { length bytes.now ≤ max_head }
    requires room { length fields.old ≡ max_fields }
    ensures found { IfOk result (λ found. IfSome found (IsSomeHeadAt Kind.Requests bytes.now fields.new)) }
    ensures unfinished { IfOk result (λ found. IfNone found (IsUnfinishedHead Kind.Requests bytes.now)) }
    ensures bad { IfErr result (λ fault. (fault ≡ HttpFault.BadHead) × HasTooManyFields Kind.Requests bytes.now × ¬ (IsUnfinishedHead Kind.Requests bytes.now)) }
{
    match parse_request(bytes, fields) {
        Ok(Status::Complete(spans)) => Ok(Some(HeadSpans {
            start: StartSpans::Request {
                method: spans.method,
                target: spans.path,
            },
            fields: spans.headers,
            len: spans.len,
        })),
        Ok(Status::Partial) if has_room(bytes) => Ok(None),
        Ok(Status::Partial) => Err(HttpFault::BadHead),
        Err(_) if ends_in_target(bytes) => Ok(None),
        Err(_) => Err(HttpFault::BadHead),
    }
}

fn find_reply(bytes: &[u8], fields: &mut [HeaderSpan]) -> Result<Option<HeadSpans>, HttpFault>
    requires few { length bytes.now ≤ max_head }
    requires room { length fields.old ≡ max_fields }
    ensures found { IfOk result (λ found. IfSome found (IsSomeHeadAt Kind.Replies bytes.now fields.new)) }
    ensures unfinished { IfOk result (λ found. IfNone found (IsUnfinishedHead Kind.Replies bytes.now)) }
    ensures bad { IfErr result (λ fault. (fault ≡ HttpFault.BadHead) × HasTooManyFields Kind.Replies bytes.now × ¬ (IsUnfinishedHead Kind.Replies bytes.now)) }
{
    match parse_response(bytes, fields) {
        Ok(Status::Complete(spans)) => Ok(Some(HeadSpans {
            start: StartSpans::Reply { status: spans.code },
            fields: spans.headers,
            len: spans.len,
        })),
        Ok(Status::Partial) if has_room(bytes) => Ok(None),
        Ok(Status::Partial) => Err(HttpFault::BadHead),
        Err(_) => Err(HttpFault::BadHead),
    }
}

// Whether no more lines have ended than the first one and those of `MAX_FIELDS` fields.
fn has_room(bytes: &[u8]) -> bool
    ensures { IsTrue result ↔ (head_lines bytes.now ≤ suc max_fields) }
{
    head_lines(bytes) <= MAX_FIELDS + 1
}
