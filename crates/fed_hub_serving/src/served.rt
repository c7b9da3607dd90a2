// What became of a request.

/// What became of a request that a server was sent over a connection.
#[derive(Clone, Copy, Debug, PartialEq, Eq)]
pub enum Served {
    /// A reply of this status was written whole, to a HEAD without its body.
    Answered(u16),
    /// A read failed before a request was whole. Nothing was written.
    ReadFault,
    /// The input ended before a request was whole. Nothing was written.
    EndedEarly,
    /// A write failed. A front of the reply was written.
    WriteFault,
}
