// The first bytes of a message, gathered to be written at once.
ghost use Rattle.std.specs.Prelude.{◌≡◌, ◌+◌, ◌≤◌, [], ◌++◌, length, take};

use std::marker::Model;

// So many bytes are gathered.
const ROOM: usize = 1_024;

/// Bytes that are gathered to be written at once, without memory: at most 1,024.
///
/// Contracts see the bytes.
#[derive(Drop)]
pub(crate) struct Front {
    bytes: [u8; ROOM],
    len: usize,
}

impl Model for Front {
    ghost use Rattle.std.specs.Prelude.{◌≤◌, ℕ, List, take};

    ghost Value = { List ℕ };

    ghost view = { λ f. take f.len f.bytes };

    ghost invariant = { λ f. f.len ≤ 1024 };
}

impl Front {
    /// No bytes.
    pub(crate) fn new() -> Front
        ensures { result ≡ [] }
    {
        Front {
            bytes: [0; ROOM],
            len: 0,
        }
    }

    /// Appends bytes, for which there is to be room.
    pub(crate) fn push(&mut self, bytes: &[u8])
        requires { length self.old + length bytes.now ≤ 1024 }
        ensures { self.new ≡ self.old ++ bytes.now }
    {
        let end = self.len + bytes.len();
        self.bytes[self.len..end].copy_from_slice(bytes);
        self.len = end;
    }

    /// Appends as many of the first of these bytes as there is room for, and tells how many.
    pub(crate) fn push_some(&mut self, bytes: &[u8]) -> usize
        ensures within { result ≤ length bytes.now }
        ensures bytes { self.new ≡ self.old ++ take result bytes.now }
        ensures all { length self.old + length bytes.now ≤ 1024 → result ≡ length bytes.now }
    {
        let taken = bytes.len().min(ROOM - self.len);
        self.push(&bytes[..taken]);
        taken
    }

    /// The bytes.
    pub(crate) fn as_slice(&self) -> &[u8]
        ensures { result.now ≡ self.now }
    {
        &self.bytes[..self.len]
    }
}
