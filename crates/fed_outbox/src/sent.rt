// What an outbox keeps of a transaction that waits for its answer.

/// A transaction as its number, when it was made, and how many of the events and EDUs that are not settled it has: the first ones.
#[derive(Clone, Copy)]
pub struct Sent {
    pub number: u64,
    pub at_ms: u64,
    pub pdus: usize,
    pub edus: usize,
}
