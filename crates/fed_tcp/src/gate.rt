// A clock for a thread that sends.
ghost use Rattle.std.specs.Prelude.{◌≡◌, ◌≤◌, ◌-◌, min};

use fed_dest::ServerIndex;
use fed_hub::Gate;
use std::marker::Model;
use std::thread;
use std::time::{Clock, Duration};

/// The greatest moment, 2^53 - 1 milliseconds since the Unix epoch.
const LAST_MOMENT: u64 = 9_007_199_254_740_991;

/// The longest pause, in milliseconds: what a server offers meanwhile is taken from its wire after it.
const LONGEST_PAUSE: u64 = 10;

/// The clock of the system, in milliseconds since the Unix epoch. It never goes back: where the system's does, or can't be read, it tells the
/// moment that it told last. It holds no thread back but in pauses, each of 10 milliseconds at most. `R` has the clock: the runtime, or a reference
/// to it.
///
/// Contracts see the moment that it told last, which is 0 at first.
#[derive(Drop)]
pub struct ClockGate<R: Clock + Copy> {
    clock: R,
    moment: u64,
}

impl<R: Clock + Copy> Model for ClockGate<R> {
    ghost use Rattle.std.specs.Prelude.{◌≤◌, ℕ};
    ghost use Rattle.std.specs.Coded.{coded_ℕ};

    ghost Value = { ℕ };

    ghost coded = { coded_ℕ };

    ghost view = { λ g. g.moment };

    ghost invariant = { λ g. g.moment ≤ 9007199254740991 };
}

impl<R: Clock + Copy> ClockGate<R> {
    /// A gate by this clock.
    pub fn new(clock: R) -> ClockGate<R>
        ensures { result ≡ 0 }
    {
        ClockGate { clock, moment: 0 }
    }

    // How long a pause until a moment is, in milliseconds: 10 at most.
    fn pause_until(&mut self, until: u64) -> u64
        ensures later { self.old ≤ self.new }
        ensures pause { result ≡ min (until - self.new) 10 }
    {
        until.saturating_sub(self.now()).min(LONGEST_PAUSE)
    }
}

impl<R: Clock + Copy> Gate for ClockGate<R> {
    ghost moment = { λ g. g };

    fn now(&mut self) -> u64
        ensures told { result ≡ self.new }
        ensures within { result ≤ 9007199254740991 }
        ensures later { self.old ≤ self.new }
    {
        if let Ok(since) = self.clock.since_1970() {
            let millis = u64::try_from(since.as_millis()).unwrap_or(LAST_MOMENT);
            self.moment = self.moment.max(millis.min(LAST_MOMENT));
        }
        self.moment
    }

    fn before(&mut self, _dest: ServerIndex, _n: u64) {}

    fn pause(&mut self, until: u64) {
        let pause = self.pause_until(until);
        if pause > 0 {
            thread::sleep(&self.clock, Duration::from_millis(pause));
        }
    }
}
