// The chunks of a body (RFC 9112, section 7.1): a walk that finds their end, and then the copy of their data.
ghost use Rattle.std.specs.Prelude.{◌≡◌, ◌≤◌, IfOk, IfSome, IfNone, IfErr};
ghost use Rattle.fed_http.specs.Limits.{max_body};
ghost use Rattle.fed_http.specs.ChunkParts.{IsLineAt, LacksLine, IsPartAt, IsPartFault, IsChunksEnd, IsTrailerAt, LacksTrailer, IsTrailerFault, IsChunkedAt, BeginsChunked, HasChunkedBody, IsChunkedFault, IsWalkFault, LineEndOf};
ghost use Rattle.fed_http.specs.Faults.{HasBadLine};
ghost use Rattle.fed_http.specs.Waiting.{LacksChunks};

use crate::fault::HttpFault;
use crate::limits::{MAX_BODY, MAX_FIELDS, MAX_HEAD, window};
use crate::unfinished::{first_lines, line_feeds};
use fed_json::NoMemory;
use httparse::spans::{EMPTY_HEADER_SPAN, parse_headers};
use httparse::{Error, Status, parse_chunk_size};
use std::alloc::Global;

/// How many bytes a body has, and how many the text that it is sent as.
#[derive(Clone, Copy)]
pub struct Extent {
    pub body: usize,
    pub text: usize,
}

/// A chunk line: how many bytes it has, and the size that it gives.
#[derive(Clone, Copy)]
pub struct Line {
    pub len: usize,
    pub size: u64,
}

// What stands at the front of what is left of a chunked body.
#[derive(Clone, Copy)]
enum Part {
    // A chunk of so many bytes of data and so many in all.
    Chunk { size: usize, len: usize },
    // The line of the last chunk, which has so many bytes.
    Last { len: usize },
    Unfinished,
}

/// Where the chunked body at the front of the bytes ends; `None` where it isn't whole yet.
///
/// # Errors
///
/// `BadChunk` where a chunk line, the end of a chunk or the trailer is none. `TooLarge` where the body or the trailer is. `BadHead`
/// where the trailer has too many fields.
pub fn find_chunked(bytes: &[u8]) -> Result<Option<Extent>, HttpFault>
    ensures found { IfOk result (λ found. IfSome found (IsChunkedAt bytes.now)) }
    ensures unfinished { IfOk result (λ found. IfNone found (LacksChunks bytes.now)) }
    ensures fault { IfErr result (IsChunkedFault bytes.now) }
{
    let Some(chunks) = find_last(bytes)? else {
        return Ok(None);
    };
    let Some(len) = find_trailer(&bytes[chunks.text..])? else {
        return Ok(None);
    };
    Ok(Some(Extent {
        body: chunks.body,
        text: chunks.text + len,
    }))
}

/// The data of the chunks at the front of the bytes, one after another. Memory for `size` bytes, which they are, is taken at once.
pub fn copy_chunks(alloc: Global, bytes: &[u8], size: usize) -> Result<Vec<u8>, NoMemory>
    requires chunked { BeginsChunked bytes.now }
    ensures body { IfOk result (λ body. HasChunkedBody bytes.now body.items) }
{
    let mut body = Vec::with_capacity(alloc, size)?;
    let mut rest = bytes;
    loop {
        let line = match find_line(rest) {
            Ok(Some(line)) => line,
            Ok(None) => unreachable!(),
            Err(_) => unreachable!(),
        };
        if line.size == 0 {
            return Ok(body);
        }
        let size = line.size as usize;
        body.extend_from_slice(&rest[line.len..line.len + size])?;
        rest = &rest[line.len + size + 2..];
    }
}

// The end of the chunks, behind the line of the last one.
fn find_last(bytes: &[u8]) -> Result<Option<Extent>, HttpFault>
    ensures found { IfOk result (λ found. IfSome found (IsChunksEnd bytes.now)) }
    ensures unfinished { IfOk result (λ found. IfNone found (LacksChunks bytes.now)) }
    ensures fault { IfErr result (IsWalkFault bytes.now) }
{
    let mut body = 0;
    let mut text = 0;
    loop {
        match find_part(&bytes[text..], MAX_BODY - body)? {
            Part::Chunk { size, len } => {
                body += size;
                text += len;
            }
            Part::Last { len } => {
                return Ok(Some(Extent {
                    body,
                    text: text + len,
                }));
            }
            Part::Unfinished => return Ok(None),
        }
    }
}

// The chunk at the front of the bytes, whose size is at most `room`.
fn find_part(bytes: &[u8], room: usize) -> Result<Part, HttpFault>
    requires room { room ≤ max_body }
    ensures part { IfOk result (IsPartAt bytes.now room) }
    ensures fault { IfErr result (IsPartFault bytes.now room) }
{
    let Some(line) = find_line(bytes)? else {
        return Ok(Part::Unfinished);
    };
    if line.size == 0 {
        return Ok(Part::Last { len: line.len });
    }
    if line.size > room as u64 {
        return Err(HttpFault::TooLarge);
    }
    let size = line.size as usize;
    let behind = &bytes[line.len..];
    if behind.len() < size {
        return Ok(Part::Unfinished);
    }
    match line_end(&behind[size..]) {
        LineEnd::There => Ok(Part::Chunk {
            size,
            len: line.len + size + 2,
        }),
        LineEnd::Unfinished => Ok(Part::Unfinished),
        LineEnd::Never => Err(HttpFault::BadChunk),
    }
}

/// The chunk line at the front of the bytes; `None` where it isn't whole yet.
///
/// # Errors
///
/// `BadChunk` where none can be there.
pub fn find_line(bytes: &[u8]) -> Result<Option<Line>, HttpFault>
    ensures found { IfOk result (λ found. IfSome found (IsLineAt bytes.now)) }
    ensures unfinished { IfOk result (λ found. IfNone found (LacksLine bytes.now)) }
    ensures bad { IfErr result (λ fault. (fault ≡ HttpFault.BadChunk) × HasBadLine bytes.now) }
{
    match parse_chunk_size(window(bytes)) {
        Ok(Status::Complete((len, size))) => Ok(Some(Line { len, size })),
        Ok(Status::Partial) if bytes.len() < MAX_HEAD => Ok(None),
        Ok(Status::Partial) => Err(HttpFault::BadChunk),
        Err(_) => Err(HttpFault::BadChunk),
    }
}

// Whether CR LF is at the front of bytes.
#[derive(Clone, Copy)]
enum LineEnd {
    There,
    Unfinished,
    Never,
}

fn line_end(bytes: &[u8]) -> LineEnd
    ensures { LineEndOf bytes.now result }
{
    if bytes.is_empty() {
        return LineEnd::Unfinished;
    }
    if bytes[0] != b'\r' {
        return LineEnd::Never;
    }
    if bytes.len() == 1 {
        return LineEnd::Unfinished;
    }
    if bytes[1] == b'\n' {
        LineEnd::There
    } else {
        LineEnd::Never
    }
}

/// How many bytes the trailer section at the front of the bytes has; `None` where it isn't whole yet. Of its lines so many are looked at
/// as it may have.
///
/// # Errors
///
/// `BadChunk` where none can be there, `BadHead` where it has too many fields, and `TooLarge` where it does not end in `MAX_HEAD` bytes.
pub fn find_trailer(bytes: &[u8]) -> Result<Option<usize>, HttpFault>
    ensures found { IfOk result (λ found. IfSome found (IsTrailerAt bytes.now)) }
    ensures unfinished { IfOk result (λ found. IfNone found (LacksTrailer bytes.now)) }
    ensures fault { IfErr result (IsTrailerFault bytes.now) }
{
    let mut fields = [EMPTY_HEADER_SPAN; MAX_FIELDS];
    let front = first_lines(window(bytes), MAX_FIELDS + 1);
    match parse_headers(front, &mut fields) {
        Ok(Status::Complete((len, _))) => Ok(Some(len)),
        Ok(Status::Partial) if line_feeds(front) > MAX_FIELDS => Err(HttpFault::BadHead),
        Ok(Status::Partial) if bytes.len() < MAX_HEAD => Ok(None),
        Ok(Status::Partial) => Err(HttpFault::TooLarge),
        Err(error) if error == Error::TooManyHeaders => Err(HttpFault::BadHead),
        Err(_) => Err(HttpFault::BadChunk),
    }
}
