// What an answer made of a transaction.

/// What became of a transaction by the answer to it.
#[derive(Clone, Copy, Debug, PartialEq, Eq)]
pub enum Settlement {
    /// It was taken: its events and EDUs are settled.
    Settled,
    /// No transaction of this number is unanswered; nothing changed.
    Ignored,
    /// It was not taken, and is to be sent again later.
    Failed,
}
