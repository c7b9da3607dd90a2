// What is noted of a numbered thing.
ghost use Rattle.std.specs.Prelude.{◌≡◌, ◌↔◌, ℕ, IsTrue, IfOk};

use fed_json::NoMemory;

/// What was noted when someone was told that a thing has a number: the number, and what tells whether a thing is that one. Things have numbers
/// from 1, in order.
pub trait Note<X> {
    // the number that was told
    ghost number: { Self → ℕ };

    // a thing is the one that was told of
    ghost IsOf: { Self → X → Type 0 };

    /// The number that was told.
    fn number(&self) -> u64
        ensures { result ≡ number self.now };

    /// Whether a thing is the one that was told of.
    ///
    /// # Errors
    ///
    /// `NoMemory`, where memory ran out before this was seen.
    fn is_of(&self, thing: &X) -> Result<bool, NoMemory>
        ensures { IfOk result (λ is. IsTrue is ↔ IsOf self.now thing.now) };
}
