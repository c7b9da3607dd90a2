// Messages off readers that give little at a time, are interrupted, fail or end.
use fed_http::{HttpFault, write_request};
use fed_stream::{MAX_READS, Unread, read_reply, read_request};
use std::alloc::Global;
use std::cell::Cell;
use std::io;
use std::io::{ErrorKind, Read};
use std::test::Fail;

const REQUEST: &[u8] = b"PUT /send/1 HTTP/1.1\r\nHost: b.example\r\nContent-Length: 2\r\n\r\n{}";

const REPLY: &[u8] = b"HTTP/1.1 200 OK\r\nContent-Length: 2\r\n\r\n{}";

// Gives its bytes in pieces of so many at most, fails at the call after so many, and is interrupted every other time where it is slow.
#[derive(Drop)]
struct Pieces<'a> {
    bytes: &'a [u8],
    piece: usize,
    calls: u64,
    slow: bool,
    waits: bool,
}

impl Read for Pieces<'_> {
    fn read(&mut self, buffer: &mut [u8]) -> io::Result<usize> {
        if self.calls == 0 {
            return Err(io::Error::from(ErrorKind::BrokenPipe));
        }
        self.calls -= 1;
        self.waits = self.slow && !self.waits;
        if self.waits {
            return Err(io::Error::from(ErrorKind::Interrupted));
        }
        let count = self.piece.min(self.bytes.len()).min(buffer.len());
        let (given, rest) = self.bytes.split_at(count);
        buffer[..count].copy_from_slice(given);
        self.bytes = rest;
        Ok(count)
    }
}

fn in_pieces(bytes: &[u8], piece: usize, calls: u64) -> Pieces<'_> {
    Pieces {
        bytes,
        piece,
        calls,
        slow: false,
        waits: false,
    }
}

// A byte at each call, and no call behind the last.
#[test]
fn a_request_comes_byte_by_byte(rt: HostRuntime) -> Result<(), Fail> {
    let alloc = rt.alloc();
    let mut reader = in_pieces(REQUEST, 1, 62);
    assert_eq!(rt; REQUEST.len(), 62);
    let request = read_request(alloc, &mut reader)?;
    assert_eq!(rt; write_request(alloc, &request)?.as_slice(), REQUEST);
    assert_eq!(rt; reader.calls, 0);
    Ok(())
}

// Four pieces, and before each an interrupted read.
#[test]
fn a_reply_comes_slowly(rt: HostRuntime) -> Result<(), Fail> {
    let alloc = rt.alloc();
    let mut reader = in_pieces(REPLY, 10, 100);
    reader.slow = true;
    let reply = read_reply(alloc, &mut reader)?;
    assert_eq!(rt; reply.status(), 200);
    assert_eq!(rt; reply.body(), b"{}".as_slice());
    assert_eq!(rt; reader.calls, 92);
    Ok(())
}

fn request_fault(alloc: Global, bytes: &[u8], calls: u64) -> Option<Unread> {
    read_request(alloc, &mut in_pieces(bytes, 5, calls)).err()
}

fn reply_fault(alloc: Global, bytes: &[u8], calls: u64) -> Option<Unread> {
    read_reply(alloc, &mut in_pieces(bytes, 5, calls)).err()
}

#[test]
fn inputs_end_early(rt: HostRuntime) {
    let alloc = rt.alloc();
    let ended = Some(Unread::EndedEarly);
    assert_eq!(rt; request_fault(alloc, b"", 100), ended);
    assert_eq!(rt; request_fault(alloc, &REQUEST[..61], 100), ended);
    assert_eq!(rt; reply_fault(alloc, b"", 100), ended);
    assert_eq!(rt; reply_fault(alloc, &REPLY[..39], 100), ended);
}

#[test]
fn reads_fail(rt: HostRuntime) {
    let alloc = rt.alloc();
    assert_eq!(rt; request_fault(alloc, REQUEST, 0), Some(Unread::Read));
    assert_eq!(rt; request_fault(alloc, REQUEST, 12), Some(Unread::Read));
    assert_eq!(rt; request_fault(alloc, REQUEST, 13), None);
    assert_eq!(rt; reply_fault(alloc, REPLY, 7), Some(Unread::Read));
}

#[test]
fn bytes_are_no_message(rt: HostRuntime) {
    let alloc = rt.alloc();
    let head = Some(Unread::Http(HttpFault::BadHead));
    let length = Some(Unread::Http(HttpFault::BadLength));
    assert_eq!(rt; request_fault(alloc, REPLY, 100), head);
    assert_eq!(rt; reply_fault(alloc, REQUEST, 100), head);
    assert_eq!(rt; request_fault(alloc, b"{\"pdus\":[]}", 100), head);
    let open = b"HTTP/1.1 200 OK\r\n\r\n";
    assert_eq!(rt; reply_fault(alloc, open, 100), length);
}

// Is interrupted at each call, and counts the calls.
#[derive(Drop)]
struct Interrupted<'a> {
    calls: &'a Cell<u64>,
}

impl Read for Interrupted<'_> {
    fn read(&mut self, _buffer: &mut [u8]) -> io::Result<usize> {
        self.calls.set(self.calls.get().saturating_add(1));
        Err(io::Error::from(ErrorKind::Interrupted))
    }
}

#[test]
fn a_reader_is_asked_so_often_at_most(rt: HostRuntime) {
    let calls = Cell::new(0);
    let mut reader = Interrupted { calls: &calls };
    let unread = read_request(rt.alloc(), &mut reader).err();
    assert_eq!(rt; unread, Some(Unread::Read));
    assert_eq!(rt; calls.get(), 40_000_000);
    assert_eq!(rt; MAX_READS, 40_000_000);
}

#[test]
fn faults_are_told_in_words(rt: HostRuntime) -> Result<(), Fail> {
    let alloc = rt.alloc();
    let length = Unread::Http(HttpFault::BadLength);
    let ended = Unread::EndedEarly.to_string(alloc)?;
    let failed = Unread::Read.to_string(alloc)?;
    assert_eq!(rt; length.to_string(alloc)?.as_str(), "bad length");
    assert_eq!(rt; ended.as_str(), "input ended early");
    assert_eq!(rt; failed.as_str(), "read failed");
    Ok(())
}
