// From the bytes of requests to the requests.
use crate::stop::Stop;
use fed_http::{HttpFault, Reader};
use std::alloc::Global;

// The most bytes of a chunk.
const CHUNK: usize = 65_536;

/// What is read: a request whose body has so many bytes, in chunks or not, so many times, in pieces of so many bytes. Its head has a field
/// of so many bytes, which moves the body against the pieces.
#[derive(Clone, Copy)]
pub(crate) struct Reading {
    pub(crate) chunked: bool,
    pub(crate) size: usize,
    pub(crate) piece: usize,
    pub(crate) times: usize,
    pub(crate) field: usize,
}

/// How many requests were read.
pub(crate) fn read(alloc: Global, reading: Reading) -> Result<u64, Stop> {
    let text = text_of(alloc, reading)?;
    let mut reader = Reader::requests(alloc);
    let mut count = 0u64;
    for _ in 0..reading.times {
        count = count.saturating_add(read_once(alloc, &mut reader, &text, reading.piece)?);
    }
    Ok(count)
}

// Feeds the text, and counts its requests.
fn read_once(alloc: Global, reader: &mut Reader, text: &[u8], piece: usize) -> Result<u64, Stop> {
    let mut count = 0u64;
    let mut left = text;
    for _ in text {
        if left.is_empty() {
            break;
        }
        let next = left.get(..piece).unwrap_or(left);
        match reader.feed(alloc, next) {
            Ok((message, used)) => {
                count = count.saturating_add(u64::from(message.is_some()));
                left = left.get(used..).unwrap_or(b"");
            }
            Err(HttpFault::Memory) => return Err(Stop::Memory),
            Err(_) => return Err(Stop::Refused),
        }
    }
    Ok(count)
}

fn text_of(alloc: Global, reading: Reading) -> Result<Vec<u8>, Stop> {
    let mut text = Vec::from_slice(alloc, b"PUT /p HTTP/1.1\r\nA: ")?;
    push_bytes(&mut text, b'b', reading.field)?;
    text.extend_from_slice(b"\r\n")?;
    if reading.chunked {
        push_chunks(alloc, &mut text, reading.size)?;
    } else {
        push_whole(alloc, &mut text, reading.size)?;
    }
    Ok(text)
}

// The rest of the request, with its length.
fn push_whole(alloc: Global, text: &mut Vec<u8>, size: usize) -> Result<(), Stop> {
    text.extend_from_slice(format!(in alloc; "Content-Length: {size}\r\n\r\n")?.as_bytes())?;
    push_bytes(text, b'a', size)
}

// The rest of the request, in chunks.
fn push_chunks(alloc: Global, text: &mut Vec<u8>, size: usize) -> Result<(), Stop> {
    text.extend_from_slice(b"Transfer-Encoding: chunked\r\n\r\n")?;
    for place in (0..size).step_by(CHUNK) {
        let count = size.saturating_sub(place).min(CHUNK);
        text.extend_from_slice(format!(in alloc; "{count:x}\r\n")?.as_bytes())?;
        push_bytes(text, b'a', count)?;
        text.extend_from_slice(b"\r\n")?;
    }
    text.extend_from_slice(b"0\r\n\r\n")?;
    Ok(())
}

// So many times one byte, at once: what a run without a request takes is little beside one with some.
fn push_bytes(text: &mut Vec<u8>, byte: u8, count: usize) -> Result<(), Stop> {
    text.resize(text.len().saturating_add(count), byte)?;
    Ok(())
}
