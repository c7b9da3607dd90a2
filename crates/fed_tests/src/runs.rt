// Runs over readers and writers that give and take little, fail, or never end.
use fed_app::{InboxSetup, MAX_READS, RunFault, SimRunFault, inbox_run, sim_run};
use fed_json::NoMemory;
use std::alloc::{AllocError, Global};
use std::cell::Cell;
use std::io;
use std::io::{ErrorKind, Read, Write};
use std::test::Fail;

const INPUT: &[u8] = b"\
a.example 7-1 {\"origin\":\"a.example\",\"origin_server_ts\":1,\"pdus\":[]}
a.example 7-2 {\"origin\":\"a.example\",\"origin_server_ts\":1,\"pdus\":[{},{\"unsigned\":{\"age\":1}},5]}
a.example 7-2 {\"origin\":\"a.example\",\"origin_server_ts\":9,\"pdus\":[]}
a.example 7-3 {\"origin\":\"c.example\",\"origin_server_ts\":1,\"pdus\":[]}
x.example 1 {}
a.example 7-4 {\"origin\":
a.example 7-4 {\"origin\":\"a.example\",\"origin_server_ts\":1.5,\"pdus\":[]}
a.example 7-4 {\"origin\":\"a.example\",\"pdus\":[]}
a.example 7-4 {\"origin\":\"a.example\",\"origin_server_ts\":1,\"pdus\":[]}
";

const OUTPUT: &[u8] = b"\
200 {\"pdus\":{}}
200 {\"pdus\":{\"$RBNvo1WzZ4oRRq0W9-hknpT7T8If536DEMBg9hyq_4o\":{\"error\":\"missing field: auth_events\"}}}
200 {\"pdus\":{\"$RBNvo1WzZ4oRRq0W9-hknpT7T8If536DEMBg9hyq_4o\":{\"error\":\"missing field: auth_events\"}}}
401 {\"errcode\":\"M_UNAUTHORIZED\",\"error\":\"origin differs\"}
403 {\"errcode\":\"M_FORBIDDEN\",\"error\":\"server not listed\"}
400 {\"errcode\":\"M_NOT_JSON\",\"error\":\"not json\"}
400 {\"errcode\":\"M_BAD_JSON\",\"error\":\"not canonical\"}
400 {\"errcode\":\"M_BAD_JSON\",\"error\":\"bad field: origin_server_ts\"}
200 {\"pdus\":{}}
";

const NOT_LISTED: &[u8] = b"403 {\"errcode\":\"M_FORBIDDEN\",\"error\":\"server not listed\"}\n";

// The inbox of `b.example`, which takes from `a.example`.
fn setup(alloc: Global) -> Result<InboxSetup, Fail> {
    let mut servers = Vec::new(alloc);
    servers.push(String::from_str(alloc, "a.example")?)?;
    let mut rooms = Vec::new(alloc);
    rooms.push(String::from_str(alloc, "!r:a.example")?)?;
    Ok(InboxSetup::read(alloc, "b.example", &servers, rooms)?)
}

// Gives its bytes in pieces of so many at most, fails at the call after so many, and asks to be called again every other time
// where it is slow.
#[derive(Drop)]
struct Pieces<'a> {
    bytes: &'a [u8],
    piece: usize,
    calls: u64,
    slow: bool,
    waits: bool,
}

impl Read for Pieces<'_> {
    fn read(&mut self, buffer: &mut [u8]) -> io::Result<usize> {
        if self.calls == 0 {
            return Err(io::Error::from(ErrorKind::BrokenPipe));
        }
        self.calls -= 1;
        self.waits = self.slow && !self.waits;
        if self.waits {
            return Err(io::Error::from(ErrorKind::Interrupted));
        }
        let count = self.piece.min(self.bytes.len()).min(buffer.len());
        let (given, rest) = self.bytes.split_at(count);
        buffer[..count].copy_from_slice(given);
        self.bytes = rest;
        Ok(count)
    }
}

fn in_pieces(bytes: &[u8], piece: usize, calls: u64) -> Pieces<'_> {
    Pieces {
        bytes,
        piece,
        calls,
        slow: false,
        waits: false,
    }
}

// Takes so many bytes at a time at most, and fails at the call after so many; a flush is a call too.
#[derive(Drop)]
struct Takes {
    bytes: Vec<u8>,
    piece: usize,
    calls: u64,
    slow: bool,
    waits: bool,
}

impl Takes {
    fn new(alloc: Global, piece: usize, calls: u64) -> Takes {
        Takes {
            bytes: Vec::new(alloc),
            piece,
            calls,
            slow: false,
            waits: false,
        }
    }
}

impl Write for Takes {
    fn write(&mut self, buffer: &[u8]) -> io::Result<usize> {
        if self.calls == 0 {
            return Err(io::Error::from(ErrorKind::BrokenPipe));
        }
        self.calls -= 1;
        self.waits = self.slow && !self.waits;
        if self.waits {
            return Err(io::Error::from(ErrorKind::Interrupted));
        }
        let count = self.piece.min(buffer.len());
        self.bytes.extend_from_slice(&buffer[..count])?;
        Ok(count)
    }

    fn flush(&mut self) -> io::Result<()> {
        if self.calls == 0 {
            return Err(io::Error::from(ErrorKind::BrokenPipe));
        }
        self.calls -= 1;
        Ok(())
    }
}

#[test]
fn bytes_in_small_pieces(rt: HostRuntime) -> Result<(), Fail> {
    let alloc = rt.alloc();
    for piece in [1, 2, 7, 70_000] {
        for slow in [false, true] {
            let mut reader = in_pieces(INPUT, piece, u64::MAX);
            reader.slow = slow;
            let mut writer = Takes::new(alloc, piece, u64::MAX);
            writer.slow = slow;
            let ended = inbox_run(alloc, reader, &mut writer, setup(alloc)?);
            assert_eq!(rt; ended, Ok(()));
            assert_eq!(rt; writer.bytes.as_slice(), OUTPUT);
        }
    }
    Ok(())
}

#[test]
fn a_run_of_a_thousand_lines(rt: HostRuntime) -> Result<(), Fail> {
    let alloc = rt.alloc();
    let mut input = Vec::new(alloc);
    let mut output = Vec::new(alloc);
    for _ in 0..1_000 {
        input.extend_from_slice(b"x.example 1 {}\n")?;
        output.extend_from_slice(NOT_LISTED)?;
    }
    let mut written = Vec::new(alloc);
    let ended = inbox_run(alloc, input.as_slice(), &mut written, setup(alloc)?);
    assert_eq!(rt; ended, Ok(()));
    assert_eq!(rt; written.as_slice(), output.as_slice());
    Ok(())
}

#[test]
fn a_read_that_fails(rt: HostRuntime) -> Result<(), Fail> {
    let alloc = rt.alloc();
    // 524 bytes in pieces of 10 are 53 reads, and one more sees the end.
    assert_eq!(rt; INPUT.len(), 524);
    for calls in 0..55 {
        let mut written = Vec::new(alloc);
        let reader = in_pieces(INPUT, 10, calls);
        let ended = inbox_run(alloc, reader, &mut written, setup(alloc)?);
        if calls < 54 {
            assert_eq!(rt; ended, Err(RunFault::Io));
            assert!(rt; OUTPUT.starts_with(&written));
            assert!(rt; written.is_empty() || written.last() == Some(&b'\n'));
        } else {
            assert_eq!(rt; ended, Ok(()));
            assert_eq!(rt; written.as_slice(), OUTPUT);
        }
    }
    Ok(())
}

#[test]
fn a_write_that_fails(rt: HostRuntime) -> Result<(), Fail> {
    let alloc = rt.alloc();
    // Each of the nine lines is written in pieces of 40, and flushed.
    let needed = 1 + 3 + 3 + 2 + 2 + 2 + 2 + 2 + 1 + 9;
    for calls in 0..needed + 1 {
        let mut writer = Takes::new(alloc, 40, calls);
        let ended = inbox_run(alloc, INPUT, &mut writer, setup(alloc)?);
        if calls < needed {
            assert_eq!(rt; ended, Err(RunFault::Io));
            assert!(rt; OUTPUT.starts_with(&writer.bytes));
        } else {
            assert_eq!(rt; ended, Ok(()));
            assert_eq!(rt; writer.bytes.as_slice(), OUTPUT);
        }
    }
    Ok(())
}

#[test]
fn a_writer_that_takes_nothing(rt: HostRuntime) -> Result<(), Fail> {
    let alloc = rt.alloc();
    let mut writer = Takes::new(alloc, 0, 1_000);
    let ended = inbox_run(alloc, INPUT, &mut writer, setup(alloc)?);
    assert_eq!(rt; ended, Err(RunFault::Io));
    assert!(rt; writer.bytes.is_empty());
    Ok(())
}

// Gives one byte at each call and counts the calls.
#[derive(Drop)]
struct Endless<'a> {
    calls: &'a Cell<u64>,
}

impl Read for Endless<'_> {
    fn read(&mut self, buffer: &mut [u8]) -> io::Result<usize> {
        self.calls.set(self.calls.get().saturating_add(1));
        if buffer.is_empty() {
            return Ok(0);
        }
        buffer[0] = b'a';
        Ok(1)
    }
}

#[test]
fn the_input_is_read_so_often_at_most(rt: HostRuntime) -> Result<(), Fail> {
    let alloc = rt.alloc();
    let calls = Cell::new(0);
    let mut written = Vec::new(alloc);
    let reader = Endless { calls: &calls };
    let ended = inbox_run(alloc, reader, &mut written, setup(alloc)?);
    assert_eq!(rt; ended, Err(RunFault::Io));
    assert!(rt; written.is_empty());
    assert_eq!(rt; calls.get(), 40_000_000);
    assert_eq!(rt; MAX_READS, 40_000_000);
    Ok(())
}

#[test]
fn a_script_is_read_so_often_at_most(rt: HostRuntime) -> Result<(), Fail> {
    let alloc = rt.alloc();
    let calls = Cell::new(0);
    let mut written = Vec::new(alloc);
    let reader = Endless { calls: &calls };
    let ended = sim_run(alloc, reader, &mut written);
    assert_eq!(rt; ended, Err(SimRunFault::Io));
    assert!(rt; written.is_empty());
    assert_eq!(rt; calls.get(), 40_000_000);
    Ok(())
}

// Gives one line at each call, once what is written before is flushed.
#[derive(Drop)]
struct Asks<'a> {
    lines: &'a [&'a [u8]],
    held: &'a Cell<u64>,
}

impl Read for Asks<'_> {
    fn read(&mut self, buffer: &mut [u8]) -> io::Result<usize> {
        let [line, rest @ ..] = self.lines else {
            return Ok(0);
        };
        if self.held.get() > 0 || line.len() > buffer.len() {
            return Err(io::Error::from(ErrorKind::Other));
        }
        buffer[..line.len()].copy_from_slice(line);
        self.lines = rest;
        Ok(line.len())
    }
}

// Counts the bytes that are not flushed.
#[derive(Drop)]
struct Holds<'a> {
    bytes: Vec<u8>,
    held: &'a Cell<u64>,
}

impl Write for Holds<'_> {
    fn write(&mut self, buffer: &[u8]) -> io::Result<usize> {
        self.bytes.extend_from_slice(buffer)?;
        self.held.set(self.held.get().saturating_add(1));
        Ok(buffer.len())
    }

    fn flush(&mut self) -> io::Result<()> {
        self.held.set(0);
        Ok(())
    }
}

#[test]
fn each_line_is_flushed_before_the_next_is_read(rt: HostRuntime) -> Result<(), Fail> {
    let alloc = rt.alloc();
    let held = Cell::new(0);
    let mut writer = Holds {
        bytes: Vec::new(alloc),
        held: &held,
    };
    let lines = [
        b"x.example 1 {}\n".as_slice(),
        b"a.example 1 {\n",
        b"x.example 2 {}",
    ];
    let reader = Asks {
        lines: &lines,
        held: &held,
    };
    let ended = inbox_run(alloc, reader, &mut writer, setup(alloc)?);
    assert_eq!(rt; ended, Ok(()));
    assert_eq!(rt; held.get(), 0);
    assert_eq!(rt;
        writer.bytes.as_slice(),
        b"403 {\"errcode\":\"M_FORBIDDEN\",\"error\":\"server not listed\"}\n\
         400 {\"errcode\":\"M_NOT_JSON\",\"error\":\"not json\"}\n\
         403 {\"errcode\":\"M_FORBIDDEN\",\"error\":\"server not listed\"}\n"
            .as_slice()
    );
    Ok(())
}

#[test]
fn texts_and_sources_of_faults(rt: HostRuntime) -> Result<(), Fail> {
    let alloc = rt.alloc();
    for (fault, text) in [
        (RunFault::Memory, "out of memory"),
        (RunFault::WrongWords { line: 7 }, "line 7: wrong words"),
        (RunFault::Io, "input or output failed"),
    ] {
        assert_eq!(rt; format!(in alloc; "{fault}")?.as_str(), text);
    }
    let no_memory: NoMemory = AllocError;
    assert_eq!(rt; RunFault::from(no_memory), RunFault::Memory);
    let full = io::Error::from(ErrorKind::OutOfMemory);
    assert_eq!(rt; RunFault::from(full), RunFault::Memory);
    let broken = io::Error::from(ErrorKind::BrokenPipe);
    assert_eq!(rt; RunFault::from(broken), RunFault::Io);
    Ok(())
}
