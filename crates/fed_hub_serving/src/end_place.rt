// Where a room's wire ended.

/// Where a room's wire ended: behind all that the first `points` requests of the history brought, and `events` events of those that the next
/// ones brought.
#[derive(Clone, Copy, Debug, PartialEq, Eq)]
pub struct EndPlace {
    pub points: usize,
    pub events: usize,
}
