// What a connection is read from and written to.
ghost use Rattle.std.specs.Prelude.{ℕ, ◌+◌, ◌*◌, ◌<◌, ◌≤◌, ◌≡◌, ◌≢◌, List};
ghost use Rattle.std.specs.Duration.{as_nanos};
ghost use Rattle.std.specs.Io.{ReadsAtMost, WritesAtMost};
ghost use Rattle.std.specs.Io.KnownBytes.{ReadConsumes, WriteAppends};
ghost use Rattle.std.specs.IoError.{error_kind};

use std::io::{self, ErrorKind, Read, Write};
use std::net::TcpStream;
use std::sync::Arc;
use std::time::Duration;

/// A socket, of which each read and each write waits no longer than is said. One that ends its wait earlier is `Interrupted`, so that it is made
/// again while there is time. A connection over TCP is one.
pub trait Socket {
    ghost use Rattle.std.specs.Prelude.{Option, None, Result, ⊤};
    ghost use Rattle.std.specs.declared.io.Error.{Error};

    // the bytes that reads will give from here on, where they are known
    ghost unread: { Self → Option (List ℕ) } = { λ _. None };

    // the bytes that were written, where they are known
    ghost written: { Self → Option (List ℕ) } = { λ _. None };

    // what a read that waits so long may give, and what the socket is then
    ghost reads: { Self → ℕ → Result ℕ Error → List ℕ → Self → Type 0 } = { λ _ _ _ _ _. ⊤ };

    // what a write of these bytes that waits so long may give, and what the socket is then
    ghost writes: { Self → ℕ → List ℕ → Result ℕ Error → Self → Type 0 } = { λ _ _ _ _ _. ⊤ };

    /// Reads as `std::io::Read` does, and waits for so many milliseconds at most.
    fn read_within(&mut self, wait: u64, buf: &mut [u8]) -> io::Result<usize>
        requires { 0 < wait }
        ensures bound { ReadsAtMost result buf.new }
        ensures bytes { ReadConsumes (unread self.old) (unread self.new) result buf.new }
        ensures read { reads self.old wait result buf.new self.new };

    /// Writes as `std::io::Write` does, and waits for so many milliseconds at most.
    fn write_within(&mut self, wait: u64, buf: &[u8]) -> io::Result<usize>
        requires { 0 < wait }
        ensures bound { WritesAtMost result buf.now }
        ensures bytes { WriteAppends (written self.old) (written self.new) result buf.now }
        ensures wrote { writes self.old wait buf.now result self.new };
}

impl Socket for &TcpStream {
    fn read_within(&mut self, wait: u64, buf: &mut [u8]) -> io::Result<usize> {
        self.set_read_timeout(Some(shortened(wait)))?;
        match self.read(buf) {
            Ok(count) => Ok(count),
            Err(error) => Err(as_interrupted(error)),
        }
    }

    fn write_within(&mut self, wait: u64, buf: &[u8]) -> io::Result<usize> {
        self.set_write_timeout(Some(shortened(wait)))?;
        match self.write(buf) {
            Ok(count) => Ok(count),
            Err(error) => Err(as_interrupted(error)),
        }
    }
}

impl Socket for Arc<TcpStream> {
    fn read_within(&mut self, wait: u64, buf: &mut [u8]) -> io::Result<usize> {
        let mut stream: &TcpStream = &**self;
        stream.read_within(wait, buf)
    }

    fn write_within(&mut self, wait: u64, buf: &[u8]) -> io::Result<usize> {
        let mut stream: &TcpStream = &**self;
        stream.write_within(wait, buf)
    }
}

// How long the system is told to wait. It may be late by an eighth of that, since the timers of its sockets are the coarser the longer they run.
fn shortened(wait: u64) -> Duration
    requires { 0 < wait }
    ensures some { 0 < as_nanos result }
    ensures in_time { 9 * as_nanos result ≤ 8 * ((wait + 1) * 1_000_000) }
{
    Duration::from_millis(wait - wait / 9)
}

// The error of a read or a write, where the one whose wait has ended is to be made again.
fn as_interrupted(error: io::Error) -> io::Error
    ensures ended { error_kind error ≡ ErrorKind.WouldBlock → error_kind result ≡ ErrorKind.Interrupted }
    ensures other { error_kind error ≢ ErrorKind.WouldBlock → result ≡ error }
{
    match error.kind() {
        ErrorKind::WouldBlock => io::Error::from(ErrorKind::Interrupted),
        _ => error,
    }
}
