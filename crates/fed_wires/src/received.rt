// What a receive found.

/// What a receive found.
#[derive(Debug, Drop, PartialEq, Eq)]
pub enum Received<T> {
    /// The first message that the wire held. It is out of the wire.
    Message(T),
    /// The wire held no message at one moment of the call.
    Empty,
    /// The wire held no message at one moment of the call, and the end that sends was seen to be gone.
    Gone,
}
