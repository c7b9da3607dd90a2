// Which message may be the k-th of a wire.
ghost use Rattle.std.specs.Prelude.{ℕ, ⊤};

/// Which messages may go over a wire: the k-th message ever sent, counted from 1, fits the number k.
///
/// Who sends shows that its message fits, and who receives knows it.
pub trait Numbering<T> {
    ghost fits: { ℕ → T → Type 0 };
}

/// Any message may have any number.
pub struct AnyMessage;

impl<T> Numbering<T> for AnyMessage {
    ghost fits = { λ k message. ⊤ };
}
