// Calls on messages that are read from a stream.

use fed_http::{Field, HttpFault, Kind, Message, Reader, Reply, Request, read_message};
use fed_json::Json;
use fed_vectors_call::{Answer, Arguments, List, Object, Stop, count, text, text_of_bytes};
use std::alloc::Global;

// How many bytes the pieces have in which each stream is read again.
const SIZES: [usize; 4] = [1, 2, 3, 65_536];

/// What was read of a stream so far: its messages, how many bytes these used, and why it cannot be read on.
#[derive(Drop)]
struct Feed {
    messages: List,
    used: u64,
    fault: Option<HttpFault>,
}

/// The messages of a stream, each with the place behind it, and how the stream ends: the same in pieces of any size, and of all its bytes
/// at once. A reader that has no memory for a piece is fed it once more, and `refused` tells how often that was, where it was.
pub fn stream(call: Arguments<'_>) -> Answer {
    let kind = kind(call)?;
    let bytes = call.bytes()?;
    let mut refused = 0;
    let told = fed(call.alloc, kind, &pieces(call, &bytes)?, &mut refused)?;
    for size in SIZES {
        let pieces = pieces_of(call.alloc, &bytes, size)?;
        if told != fed(call.alloc, kind, &pieces, &mut refused)? {
            return Err(Stop::error(format!(in call.alloc; "cut otherwise")));
        }
    }
    if told != read_plainly(call.alloc, kind, &bytes)? {
        return Err(Stop::error(format!(in call.alloc; "the readers differ")));
    }
    if refused == 0 {
        return Ok(told);
    }
    Object::of(call.alloc, told)
        .with("refused", count(call.alloc, refused))
        .into_answer()
}

fn kind(call: Arguments<'_>) -> Result<Kind, Stop> {
    match call.text("kind")? {
        "requests" => Ok(Kind::Requests),
        "replies" => Ok(Kind::Replies),
        _ => Err(call.wrong_kind("kind")),
    }
}

// What a reader gives of the pieces; one more is refused where memory runs out for it.
fn fed(alloc: Global, kind: Kind, pieces: &[&[u8]], refused: &mut u64) -> Answer {
    let mut reader = match kind {
        Kind::Requests => Reader::requests(alloc),
        Kind::Replies => Reader::replies(alloc),
    };
    let mut feed = begun(alloc);
    for piece in pieces {
        feed = with_piece(alloc, &mut reader, feed, piece, refused)?;
    }
    match feed.fault {
        Some(_) => told(alloc, feed, reader.feed(alloc, b"").err()),
        None => told(alloc, feed, None),
    }
}

// What the plain reader gives of all the bytes. Each message takes at least a byte.
fn read_plainly(alloc: Global, kind: Kind, bytes: &[u8]) -> Answer {
    let mut feed = begun(alloc);
    let mut left = bytes;
    for _ in bytes {
        match read_message(alloc, kind, left) {
            Ok(Some((message, len))) => {
                feed = given(alloc, feed, Some(message), len);
                left = left.get(len..).unwrap_or(b"");
            }
            Ok(None) => break,
            Err(HttpFault::Memory) => return Err(Stop::Memory),
            Err(fault) => return told(alloc, faulty(feed, fault), Some(HttpFault::HasFailed)),
        }
    }
    told(alloc, feed, None)
}

fn begun(alloc: Global) -> Feed {
    Feed {
        messages: List::new(alloc),
        used: 0,
        fault: None,
    }
}

// The pieces between the places of `cuts`, or the whole.
fn pieces<'a>(call: Arguments<'_>, bytes: &'a [u8]) -> Result<Vec<&'a [u8]>, Stop> {
    let mut pieces = Vec::new(call.alloc);
    let mut start = 0;
    for cut in cuts(call)? {
        let cut = cut as usize;
        match bytes.get(start..cut) {
            Some(piece) => pieces.push(piece)?,
            None => return Err(call.wrong_kind("cuts")),
        }
        start = cut;
    }
    match bytes.get(start..) {
        Some(piece) => pieces.push(piece)?,
        None => return Err(call.wrong_kind("cuts")),
    }
    Ok(pieces)
}

// The pieces of so many bytes each.
fn pieces_of(alloc: Global, bytes: &[u8], size: usize) -> Result<Vec<&[u8]>, Stop> {
    let mut pieces = Vec::new(alloc);
    for piece in bytes.chunks(size.max(1)) {
        pieces.push(piece)?;
    }
    Ok(pieces)
}

fn cuts(call: Arguments<'_>) -> Result<Vec<u64>, Stop> {
    match call.find("cuts") {
        Some(_) => call.wholes("cuts"),
        None => Ok(Vec::new(call.alloc)),
    }
}

// Feeds a piece. Each message takes at least a byte.
fn with_piece(
    alloc: Global,
    reader: &mut Reader,
    feed: Feed,
    piece: &[u8],
    refused: &mut u64,
) -> Result<Feed, Stop> {
    let mut feed = feed;
    let mut left = piece;
    for _ in piece {
        if left.is_empty() || feed.fault.is_some() {
            break;
        }
        let used;
        (feed, used) = with_message(alloc, reader, feed, left, refused)?;
        left = left.get(used..).unwrap_or(b"");
    }
    Ok(feed)
}

// Feeds a piece up to the end of its first message, and tells how much of it was used.
fn with_message(
    alloc: Global,
    reader: &mut Reader,
    feed: Feed,
    piece: &[u8],
    refused: &mut u64,
) -> Result<(Feed, usize), Stop> {
    match fed_with(alloc, reader, piece, refused)? {
        Ok((message, used)) => Ok((given(alloc, feed, message, used), used)),
        Err(HttpFault::Memory) => Err(Stop::Memory),
        Err(fault) => Ok((faulty(feed, fault), 0)),
    }
}

// What the reader gives of a piece. Where memory runs out for it, the reader has to keep as much as before, and is fed it once more.
fn fed_with(
    alloc: Global,
    reader: &mut Reader,
    piece: &[u8],
    refused: &mut u64,
) -> Result<Result<(Option<Message>, usize), HttpFault>, Stop> {
    let held = reader.held();
    match reader.feed(alloc, piece) {
        Err(HttpFault::Memory) => {
            *refused = refused.saturating_add(1);
            if reader.held() != held {
                return Err(Stop::error(format!(in alloc; "kept otherwise")));
            }
            Ok(reader.feed(alloc, piece))
        }
        fed => Ok(fed),
    }
}

fn faulty(feed: Feed, fault: HttpFault) -> Feed {
    let Feed { messages, used, .. } = feed;
    Feed {
        messages,
        used,
        fault: Some(fault),
    }
}

// With what one call gave, and used.
fn given(alloc: Global, feed: Feed, message: Option<Message>, more: usize) -> Feed {
    let Feed {
        messages,
        used,
        fault,
    } = feed;
    let used = used.saturating_add(more as u64);
    let messages = match message {
        Some(message) => messages.with(message_of(alloc, &message, used)),
        None => messages,
    };
    Feed {
        messages,
        used,
        fault,
    }
}

fn message_of(alloc: Global, message: &Message, end: u64) -> Answer {
    let told = match message {
        Message::Request(request) => request_of(alloc, request),
        Message::Reply(reply) => reply_of(alloc, reply),
    };
    told.with("end", count(alloc, end)).into_answer()
}

fn request_of(alloc: Global, request: &Request) -> Object {
    Object::new(alloc)
        .with("body", text_of_bytes(alloc, request.body()))
        .with("fields", fields(alloc, request.fields()))
        .with("method", text(alloc, request.method()))
        .with("target", text(alloc, request.target()))
}

fn reply_of(alloc: Global, reply: &Reply) -> Object {
    Object::new(alloc)
        .with("body", text_of_bytes(alloc, reply.body()))
        .with("status", count(alloc, u64::from(reply.status())))
}

fn fields(alloc: Global, fields: &[Field]) -> Answer {
    let mut list = List::new(alloc);
    for field in fields {
        list = list.with(pair(alloc, field));
    }
    list.into_answer()
}

fn pair(alloc: Global, field: &Field) -> Answer {
    List::new(alloc)
        .with(text(alloc, field.name()))
        .with(text_of_bytes(alloc, field.value()))
        .into_answer()
}

// What was read, and of a stream that ends in a fault what the reader says from then on.
fn told(alloc: Global, feed: Feed, again: Option<HttpFault>) -> Answer {
    let Feed {
        messages,
        fault,
        ..
    } = feed;
    let Some(fault) = fault else {
        return Object::new(alloc)
            .with("end", text(alloc, "open"))
            .with("messages", messages.into_answer())
            .into_answer();
    };
    Object::new(alloc)
        .with("again", name_of(alloc, again))
        .with("end", name_of(alloc, Some(fault)))
        .with("messages", messages.into_answer())
        .into_answer()
}

fn name_of(alloc: Global, fault: Option<HttpFault>) -> Answer {
    match fault {
        Some(fault) => Ok(Json::from(format!(in alloc; "{fault}")?)),
        None => text(alloc, "none"),
    }
}
