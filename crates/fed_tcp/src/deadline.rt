// A moment by which all must be done.
ghost use Rattle.std.specs.Prelude.{◌≡◌, ◌<◌, ◌≤◌, IfOk, IfErr};
ghost use Rattle.std.specs.IoError.{error_kind};
ghost use Rattle.fed_tcp.specs.Deadlines.{HasPassed, IsAsked, IsSet, time_left};

use crate::watch::Watch;
use std::io::{self, ErrorKind};

/// How many seconds a request or an exchange may take where an embedder has no wish.
pub const PATIENCE: u64 = 30;

/// A moment by which all must be done, and the moment that counts, which is the latest that its watch told so far. Both are in milliseconds. A
/// watch that can't be read counts as one that tells the deadline, so that nobody waits by it for ever.
#[derive(Clone, Copy)]
pub struct Deadline<W> {
    pub watch: W,
    pub told: u64,
    pub until: u64,
}

impl<W: Watch> Deadline<W> {
    /// The deadline that is `seconds` from now on.
    pub fn new(mut watch: W, seconds: u64) -> Deadline<W>
        ensures { IsSet W.tells watch seconds result }
    {
        let (told, until) = match watch.tell() {
            Some(told) => (told, told.saturating_add(seconds.saturating_mul(1000))),
            None => (0, 0),
        };
        Deadline { watch, told, until }
    }

    /// How many milliseconds are left.
    ///
    /// # Errors
    ///
    /// `TimedOut` where none is left, then and ever after.
    pub fn left(&mut self) -> io::Result<u64>
        ensures asked { IsAsked W.tells self.old self.new }
        ensures later { self.old.told ≤ self.new.told }
        ensures for_good { HasPassed self.old → HasPassed self.new }
        ensures left { IfOk result (λ left. (0 < left) × (left ≡ time_left self.new)) }
        ensures passed { IfErr result (λ error. HasPassed self.new × (error_kind error ≡ ErrorKind.TimedOut)) }
    {
        self.told = self.told.max(self.watch.tell().unwrap_or(self.until));
        if self.told >= self.until {
            return Err(io::Error::from(ErrorKind::TimedOut));
        }
        Ok(self.until - self.told)
    }
}
