// How far a thread has come.

/// How far a thread that moves on what comes over a wire has come.
#[derive(Clone, Copy, Debug, PartialEq, Eq)]
pub enum Ran {
    /// Nothing more comes, and all that came was moved on.
    Drained,
    /// All turns were made.
    TurnsSpent,
    /// Memory ran out. What came and was not moved on is in hand, and the call may be made again.
    Memory,
}
