// What became of a collect.

/// What became of a collect.
#[derive(Clone, Copy, Debug, PartialEq, Eq)]
pub enum Collected {
    /// A parcel was moved into the outbox.
    Moved,
    /// The wire held no parcel at one moment of the call.
    Nothing,
    /// Nothing more comes: the end was moved, or the other end of the wire was seen to be gone. Or the outbox does not accept the parcel, which
    /// stays in hand.
    Closed,
    /// Memory ran out. The parcel stays in hand, and the next call moves it first.
    Memory,
}
