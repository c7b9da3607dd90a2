// Readers and writers with a deadline, by a watch and a socket that are made up.
use crate::deadline::Deadline;
use crate::socket::Socket;
use crate::timed::Timed;
use crate::watch::Watch;
use std::io::{self, ErrorKind, Read, Write};

// Tells these moments one after another, and then none.
#[derive(Clone, Copy)]
struct Told<'a> {
    moments: &'a [Option<u64>],
    asked: usize,
}

impl Watch for Told<'_> {
    fn tell(&mut self) -> Option<u64> {
        let told = self.moments.get(self.asked).copied().flatten();
        self.asked = self.asked.saturating_add(1);
        told
    }
}

// Gives or takes a byte each time, and notes how long it was to wait; the fourth time it fails.
#[derive(Clone, Copy)]
struct Trickle {
    waits: [u64; 3],
    times: usize,
}

impl Trickle {
    fn next(&mut self, wait: u64) -> io::Result<()> {
        let Some(noted) = self.waits.get_mut(self.times) else {
            return Err(io::Error::from(ErrorKind::ConnectionReset));
        };
        *noted = wait;
        self.times = self.times.saturating_add(1);
        Ok(())
    }
}

impl Socket for Trickle {
    fn read_within(&mut self, wait: u64, buf: &mut [u8]) -> io::Result<usize> {
        self.next(wait)?;
        match buf.first_mut() {
            Some(first) => {
                *first = b'x';
                Ok(1)
            }
            None => Ok(0),
        }
    }

    fn write_within(&mut self, wait: u64, buf: &[u8]) -> io::Result<usize> {
        self.next(wait)?;
        Ok(buf.len().min(1))
    }
}

// Gives and takes nothing: each wait ends.
#[derive(Clone, Copy)]
struct Silence;

impl Socket for Silence {
    fn read_within(&mut self, _wait: u64, _buf: &mut [u8]) -> io::Result<usize> {
        Err(io::Error::from(ErrorKind::Interrupted))
    }

    fn write_within(&mut self, _wait: u64, _buf: &[u8]) -> io::Result<usize> {
        Err(io::Error::from(ErrorKind::Interrupted))
    }
}

// A trickle that has two seconds, by a watch that tells these moments.
fn two_seconds<'a>(moments: &'a [Option<u64>]) -> Timed<Trickle, Told<'a>> {
    let socket = Trickle {
        waits: [0; 3],
        times: 0,
    };
    let deadline = Deadline::new(Told { moments, asked: 0 }, 2);
    Timed { socket, deadline }
}

fn kind<T: Drop>(done: io::Result<T>) -> Option<ErrorKind> {
    match done {
        Ok(_) => None,
        Err(error) => Some(error.kind()),
    }
}

// The watch goes back behind the deadline.
const MOMENTS: [Option<u64>; 6] = [
    Some(5000),
    Some(5100),
    Some(6999),
    Some(7000),
    Some(5200),
    Some(9000),
];

#[test]
fn a_read_waits_for_what_is_left_and_never_once_none_is(rt: HostRuntime) {
    let mut reader = two_seconds(&MOMENTS);
    let mut piece = [b'-'; 4];
    let first = kind(reader.read(&mut piece));
    let second = kind(reader.read(&mut piece[1..]));
    assert_eq!(rt; (first, second), (None, None));
    for _ in 0..4 {
        let late = kind(reader.read(&mut piece[2..]));
        assert_eq!(rt; late, Some(ErrorKind::TimedOut));
    }
    assert_eq!(rt; piece, *b"xx--");
    assert_eq!(rt; reader.socket.waits, [1900, 1, 0]);
}

#[test]
fn a_write_waits_for_what_is_left_and_never_once_none_is(rt: HostRuntime) {
    let mut writer = two_seconds(&MOMENTS);
    assert_eq!(rt; kind(writer.write_all(b"abc")), Some(ErrorKind::TimedOut));
    for _ in 0..3 {
        assert_eq!(rt; kind(writer.write(b"c")), Some(ErrorKind::TimedOut));
    }
    assert_eq!(rt; writer.socket.waits, [1900, 1, 0]);
    assert_eq!(rt; kind(writer.flush()), None);
}

#[test]
fn a_reader_and_a_writer_share_a_deadline(rt: HostRuntime) {
    let mut reader = two_seconds(&[Some(0), Some(1500), Some(2000)]);
    let mut writer = reader;
    assert_eq!(rt; kind(reader.read(&mut [0; 1])), None);
    assert_eq!(rt; kind(writer.write(b"a")), None);
    assert_eq!(rt;
        (reader.socket.waits[0], writer.socket.waits[0]),
        (500, 500)
    );
    assert_eq!(rt; kind(writer.write(b"b")), Some(ErrorKind::TimedOut));
}

#[test]
fn a_watch_that_goes_back_gives_no_time(rt: HostRuntime) {
    let mut reader = two_seconds(&[Some(4000), Some(5500), Some(4000), Some(0)]);
    assert_eq!(rt; kind(reader.read_exact(&mut [0; 3])), None);
    assert_eq!(rt; reader.socket.waits, [500, 500, 500]);
}

#[test]
fn a_watch_that_cant_be_read_ends_it(rt: HostRuntime) {
    for moments in [
        [None, Some(0), Some(1), Some(1)],
        [Some(1), None, Some(1), Some(1)],
    ] {
        let mut reader = two_seconds(&moments);
        for _ in 0..3 {
            assert_eq!(rt; kind(reader.read(&mut [0; 1])), Some(ErrorKind::TimedOut));
        }
        assert_eq!(rt; reader.socket.times, 0);
    }
}

#[test]
fn a_wait_that_ends_is_made_again_until_the_deadline(rt: HostRuntime) {
    let moments = [Some(0), Some(0), Some(1900), Some(1999), Some(2000)];
    let watch = Told {
        moments: &moments,
        asked: 0,
    };
    let mut reader = Timed {
        socket: Silence,
        deadline: Deadline::new(watch, 2),
    };
    let mut writer = reader;
    assert_eq!(rt;
        kind(reader.read_exact(&mut [0; 1])),
        Some(ErrorKind::TimedOut)
    );
    assert_eq!(rt; kind(writer.write_all(b"a")), Some(ErrorKind::TimedOut));
    let asked = (reader.deadline.watch.asked, writer.deadline.watch.asked);
    assert_eq!(rt; asked, (5, 5));
}

#[test]
fn a_fault_of_the_socket_is_told(rt: HostRuntime) {
    let mut writer = two_seconds(&[Some(0); 5]);
    let mut reader = writer;
    assert_eq!(rt;
        kind(writer.write_all(b"abcd")),
        Some(ErrorKind::ConnectionReset)
    );
    assert_eq!(rt;
        kind(reader.read_exact(&mut [0; 4])),
        Some(ErrorKind::ConnectionReset)
    );
}

#[test]
fn the_systems_clock_is_a_watch(rt: HostRuntime) {
    let left = Deadline::new(&rt, 30).left().unwrap_or(0);
    assert!(rt; 1000 < left && left <= 30_000, "{left} of 30 seconds");
    assert_eq!(rt;
        kind(Deadline::new(&rt, 0).left()),
        Some(ErrorKind::TimedOut)
    );
    assert!(rt; Deadline::new(&rt, u64::MAX).left().is_ok());
}
