// What a deadline asks for the moment.
use std::time::Clock;

/// Tells moments, in milliseconds from a beginning of its own. A clock of the system does.
pub trait Watch {
    ghost use Rattle.std.specs.Prelude.{ℕ, Option, ⊤};

    // what it may tell, and what it is then
    ghost tells: { Self → Option ℕ → Self → Type 0 } = { λ _ _ _. ⊤ };

    /// The present moment; `None` where it can't be told.
    fn tell(&mut self) -> Option<u64>
        ensures { tells self.old result self.new };
}

impl<R: Clock> Watch for R {
    fn tell(&mut self) -> Option<u64> {
        let since = self.monotonic().ok()?;
        Some(u64::try_from(since.as_millis()).unwrap_or(u64::MAX))
    }
}
