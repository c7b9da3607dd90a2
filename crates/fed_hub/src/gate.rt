// What a thread that sends asks for the moment, and what makes it pause.
ghost use Rattle.std.specs.Prelude.{ℕ, ◌≡◌, ◌≤◌};

use fed_dest::ServerIndex;

/// A clock for a thread that sends, which may hold it back. Moments are in milliseconds since the Unix epoch, at most 2^53 - 1.
pub trait Gate {
    // the moment that was told last
    ghost moment: { Self → ℕ };

    /// The present moment.
    fn now(&mut self) -> u64
        ensures told { result ≡ moment self.new }
        ensures within { result ≤ 9007199254740991 };

    /// Called before each time that transaction `n` is brought to a server. No lock is held meanwhile.
    fn before(&mut self, dest: ServerIndex, n: u64);

    /// Waits until a moment, at which a transaction is due again. It may return earlier, and should do so every now and then: what the
    /// server offers meanwhile is taken from its wire only between two pauses, and a full wire makes all who send wait. No lock is held
    /// meanwhile.
    fn pause(&mut self, until: u64);
}
