// Where parcels stand.
ghost use Rattle.std.specs.Prelude.{◌≡◌, ◌<◌, ◌≤◌, ◌+◌, ◌^◌};

use fed_dest::ServerIndex;
use std::marker::Model;

/// The most entries of a journal, 2^53.
pub const MAX_ENTRIES: u64 = 1 << 53;

/// The place of a parcel: its destination, and its number, which counts, from 1, all parcels ever placed for that destination. A
/// number is at most one more than `MAX_ENTRIES`, which the type keeps.
#[derive(Clone, Copy, Debug, PartialEq, Eq)]
pub struct Place {
    dest: ServerIndex,
    number: u64,
}

impl Model for Place {
    ghost use Rattle.std.specs.Prelude.{◌<◌, ◌≤◌, ◌+◌, ◌^◌};
    ghost use Rattle.fed_journal.specs.Place.{PlaceValue, place_code};

    ghost Value = { PlaceValue };

    ghost coded = { place_code };

    ghost view = { λ p. record { dest = p.dest; number = p.number } };

    ghost invariant = { λ p. (0 < p.number) × (p.number ≤ 2 ^ 53 + 1) };

    ghost inverse = { λ p. record { dest = p.dest; number = p.number } };
}

impl Place {
    /// The place of this number for a destination.
    pub const fn new(dest: ServerIndex, number: u64) -> Place
        requires counts { 0 < number }
        requires within { number ≤ 2 ^ 53 + 1 }
        ensures { result ≡ record { dest = dest; number = number } }
    {
        Place { dest, number }
    }

    /// The destination.
    pub const fn dest(self) -> ServerIndex
        ensures { result ≡ self.dest }
    {
        self.dest
    }

    /// The number, from 1.
    pub const fn number(self) -> u64
        ensures number { result ≡ self.number }
        ensures counts { 0 < result }
        ensures within { result ≤ 2 ^ 53 + 1 }
    {
        self.number
    }
}
