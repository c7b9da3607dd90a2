// Places in a list of servers.
ghost use Rattle.std.specs.Prelude.{◌≡◌, ◌<◌};

use std::marker::Model;

/// The most servers of a list.
pub const MAX_SERVERS: usize = 64;

/// The place of a server in a list, counted from 0: below `MAX_SERVERS`, which the type keeps.
///
/// Contracts see it as the number.
#[derive(Clone, Copy, Debug, PartialEq, Eq, PartialOrd, Ord)]
pub struct ServerIndex {
    place: u8,
}

impl Model for ServerIndex {
    ghost use Rattle.std.specs.Prelude.{◌<◌, ℕ};
    ghost use Rattle.std.specs.Coded.{coded_ℕ};

    ghost Value = { ℕ };

    ghost coded = { coded_ℕ };

    ghost view = { λ i. i.place };

    ghost invariant = { λ i. i.place < 64 };

    ghost inverse = { λ n. record { place = n } };
}

impl ServerIndex {
    /// The index of a place.
    pub const fn new(place: usize) -> ServerIndex
        requires { place < MAX_SERVERS }
        ensures { result ≡ place }
    {
        ServerIndex { place: place as u8 }
    }

    /// The place.
    pub const fn place(self) -> usize
        ensures place { result ≡ self }
        ensures within { result < MAX_SERVERS }
    {
        self.place as usize
    }
}
