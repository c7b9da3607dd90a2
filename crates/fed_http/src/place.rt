// Where in a message the bytes so far end.

/// Where in a message its bytes so far end.
#[derive(Clone, Copy, Debug, PartialEq, Eq)]
pub enum Place {
    /// In its head.
    InHead,
    /// In a body of a known length, of which so many bytes are missing.
    InBody { left: usize },
    /// In the line of a chunk.
    InLine,
    /// In the data of a chunk, of which so many bytes are missing.
    InData { left: usize },
    /// Behind the data of a chunk.
    BehindData,
    /// Behind the data of a chunk and a CR.
    BehindReturn,
    /// In the trailer.
    InTrailer,
    /// At its end.
    Ended,
}
