// A reader and a writer that know by when they must be done.
ghost use Rattle.std.specs.Prelude.{◌≡◌, ◌<◌, IsErrAnd, IsOk};
ghost use Rattle.std.specs.Io.{ReadsAtMost, WritesAtMost};
ghost use Rattle.std.specs.Io.KnownBytes.{ReadConsumes, WriteAppends};
ghost use Rattle.std.specs.IoError.{error_kind};
ghost use Rattle.fed_tcp.specs.Deadlines.{HasPassed, IsAsked, time_left};

use crate::deadline::Deadline;
use crate::socket::Socket;
use crate::watch::Watch;
use std::io::{self, ErrorKind, Read, Write};

/// A socket that is read and written until a deadline. Each read and each write looks once how much time is left, and waits no longer. Where none
/// is left each is `TimedOut`, and the socket is not touched. One whose wait ends earlier is `Interrupted`, as of any reader or writer: it is to be
/// made again.
#[derive(Clone, Copy)]
pub struct Timed<S, W> {
    pub socket: S,
    pub deadline: Deadline<W>,
}

impl<S: Socket, W: Watch> Read for Timed<S, W> {
    ghost remaining = { λ it. S.unread it.socket };

    fn read(&mut self, buf: &mut [u8]) -> io::Result<usize>
        ensures bound { ReadsAtMost result buf.new }
        ensures bytes { ReadConsumes (S.unread self.old.socket) (S.unread self.new.socket) result buf.new }

        ensures asked { IsAsked W.tells self.old.deadline self.new.deadline }
        ensures for_good { HasPassed self.old.deadline → HasPassed self.new.deadline }
        ensures in_time { 0 < time_left self.new.deadline → S.reads self.old.socket (time_left self.new.deadline) result buf.new self.new.socket }
        ensures too_late { HasPassed self.new.deadline → IsErrAnd result (λ error. error_kind error ≡ ErrorKind.TimedOut) }
        ensures untouched { HasPassed self.new.deadline → (self.new.socket ≡ self.old.socket) × (buf.new ≡ buf.old) }
    {
        self.socket.read_within(self.deadline.left()?, buf)
    }
}

impl<S: Socket, W: Watch> Write for Timed<S, W> {
    ghost contents = { λ it. S.written it.socket };

    fn write(&mut self, buf: &[u8]) -> io::Result<usize>
        ensures bound { WritesAtMost result buf.now }
        ensures bytes { WriteAppends (S.written self.old.socket) (S.written self.new.socket) result buf.now }

        ensures asked { IsAsked W.tells self.old.deadline self.new.deadline }
        ensures for_good { HasPassed self.old.deadline → HasPassed self.new.deadline }
        ensures in_time { 0 < time_left self.new.deadline → S.writes self.old.socket (time_left self.new.deadline) buf.now result self.new.socket }
        ensures too_late { HasPassed self.new.deadline → IsErrAnd result (λ error. error_kind error ≡ ErrorKind.TimedOut) }
        ensures untouched { HasPassed self.new.deadline → self.new.socket ≡ self.old.socket }
    {
        self.socket.write_within(self.deadline.left()?, buf)
    }

    // Nothing is held back.
    fn flush(&mut self) -> io::Result<()>
        ensures done { IsOk result }
        ensures same { self.new ≡ self.old }
    {
        Ok(())
    }
}
