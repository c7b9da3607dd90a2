// Exchanges that go well, and those whose writer takes nothing or whose reader gives no reply.
use fed_connection::{Unanswered, exchange};
use fed_http::HttpFault;
use fed_stream::Unread;
use std::alloc::Global;
use std::io;
use std::io::{ErrorKind, Read, Write};
use std::test::Fail;

const REQUEST: &[u8] = b"PUT /send/1 HTTP/1.1\r\nContent-Length: 2\r\n\r\n{}";

const CHUNKED: &[u8] =
    b"HTTP/1.0 200 Fine\r\nServer: x\r\ntransfer-encoding: chunked\r\n\r\n1\r\n{\r\n1\r\n}\r\n0\r\n\r\nrest";

const WRITTEN: &[u8] =
    b"HTTP/1.1 200 OK\r\nContent-Type: application/json\r\nContent-Length: 2\r\nConnection: close\r\n\r\n{}";

// Takes so many bytes at most, and fails behind them.
#[derive(Drop)]
struct Narrow {
    room: usize,
}

impl Write for Narrow {
    fn write(&mut self, bytes: &[u8]) -> io::Result<usize> {
        if self.room == 0 {
            return Err(io::Error::from(ErrorKind::TimedOut));
        }
        let count = self.room.min(bytes.len());
        self.room -= count;
        Ok(count)
    }

    fn flush(&mut self) -> io::Result<()> {
        Ok(())
    }
}

// Gives its bytes, and fails behind them.
#[derive(Drop)]
struct Broken<'a> {
    bytes: &'a [u8],
}

impl Read for Broken<'_> {
    fn read(&mut self, buffer: &mut [u8]) -> io::Result<usize> {
        if self.bytes.is_empty() {
            return Err(io::Error::from(ErrorKind::WouldBlock));
        }
        self.bytes.read(buffer)
    }
}

// Why bytes bring no reply.
fn fault_of(alloc: Global, mut bytes: &[u8]) -> Option<Unanswered> {
    let mut writer = Vec::new(alloc);
    exchange(alloc, &mut bytes, &mut writer, REQUEST).err()
}

#[test]
fn a_reply_comes_in_another_form(rt: HostRuntime) -> Result<(), Fail> {
    let alloc = rt.alloc();
    let mut writer = Vec::new(alloc);
    let mut reader = CHUNKED;
    let reply = exchange(alloc, &mut reader, &mut writer, REQUEST)?;
    assert_eq!(rt; writer.as_slice(), REQUEST);
    assert_eq!(rt; reply.as_slice(), WRITTEN);
    Ok(())
}

#[test]
fn requests_are_not_sent(rt: HostRuntime) {
    let alloc = rt.alloc();
    for room in 0..REQUEST.len() {
        let mut reader = CHUNKED;
        let told = exchange(alloc, &mut reader, &mut Narrow { room }, REQUEST).err();
        assert_eq!(rt; told, Some(Unanswered::Unsent));
        assert_eq!(rt; reader.len(), CHUNKED.len());
    }
}

#[test]
fn replies_do_not_come(rt: HostRuntime) {
    let alloc = rt.alloc();
    let ended = Some(Unanswered::Unread(Unread::EndedEarly));
    for count in 0..WRITTEN.len() {
        assert_eq!(rt; fault_of(alloc, &WRITTEN[..count]), ended);
    }
    let mut broken = Broken {
        bytes: &WRITTEN[..9],
    };
    let mut writer = Vec::new(alloc);
    let told = exchange(alloc, &mut broken, &mut writer, REQUEST).err();
    assert_eq!(rt; told, Some(Unanswered::Unread(Unread::Read)));
}

#[test]
fn bytes_are_no_reply(rt: HostRuntime) {
    let alloc = rt.alloc();
    let http = |fault| Some(Unanswered::Unread(Unread::Http(fault)));
    let long = b"HTTP/1.1 200 OK\r\nContent-Length: 16777217\r\n\r\n";
    assert_eq!(rt; fault_of(alloc, REQUEST), http(HttpFault::BadHead));
    assert_eq!(rt;
        fault_of(alloc, b"HTTP/1.1 100 Continue\r\n\r\n"),
        http(HttpFault::BadHead)
    );
    assert_eq!(rt;
        fault_of(alloc, b"HTTP/1.1 200 OK\r\n\r\n"),
        http(HttpFault::BadLength)
    );
    assert_eq!(rt; fault_of(alloc, long), http(HttpFault::TooLarge));
}

#[test]
fn faults_are_told_in_words(rt: HostRuntime) -> Result<(), Fail> {
    let alloc = rt.alloc();
    let unsent = Unanswered::Unsent.to_string(alloc)?;
    let ended = Unanswered::Unread(Unread::EndedEarly).to_string(alloc)?;
    assert_eq!(rt; unsent.as_str(), "request not sent");
    assert_eq!(rt; ended.as_str(), "no reply: input ended early");
    Ok(())
}
