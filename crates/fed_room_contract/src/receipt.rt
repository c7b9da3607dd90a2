// What becomes of an event that a room is given.
use crate::verdict::Verdict;

/// What becomes of an event that a room is given.
#[derive(Clone, Copy, Debug, PartialEq, Eq)]
pub enum Receipt {
    /// It is stored with this verdict.
    Stored(Verdict),
    /// An event of its id is stored or waits, and nothing changes.
    Known,
    /// It waits for events that it names.
    Waiting,
    /// It would have to wait, and as many events as may wait do so already.
    Dropped,
}
