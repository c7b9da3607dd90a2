// What is sent on to a destination.
ghost use Rattle.std.specs.Prelude.{◌≡◌, ◌↔◌, IsTrue, bytes_eq};
ghost use Rattle.std.specs.Cmp.{on_equiv, on_per, partial_equiv_from_equiv};
ghost use Rattle.std.specs.Cmp.Lexicographic.{nat_list_eq_equiv};
ghost use Rattle.fed_journal.specs.Loads.{load_text, parcel_text};

use crate::place::Place;
use fed_event::Checked;
use fed_json::Json;

/// What a parcel holds.
#[derive(Drop)]
pub enum Load {
    /// An event (PDU).
    Event(Checked),
    /// An ephemeral data unit.
    Edu(Json),
    /// Nothing more comes: the outbox of the destination was closed.
    End,
}

/// What the outbox of one destination is given, with its place.
#[derive(Drop)]
pub struct Parcel {
    pub place: Place,
    pub load: Load,
}

/// Loads are equal where they hold the same. It takes no memory.
impl PartialEq for Load {
    ghost eq = { λ load other. bytes_eq (load_text load) (load_text other) };

    ghost laws = { on_per load_text (partial_equiv_from_equiv nat_list_eq_equiv) };

    fn eq(&self, other: &Load) -> bool
        ensures texts { result ≡ bytes_eq (load_text self.now) (load_text other.now) }
        ensures same { IsTrue result ↔ (self.now ≡ other.now) }
    {
        match (self, other) {
            (Load::Event(event), Load::Event(another)) => *event == *another,
            (Load::Edu(edu), Load::Edu(another)) => *edu == *another,
            (Load::End, Load::End) => true,
            _ => false,
        }
    }
}

impl Eq for Load {
    ghost laws = { on_equiv load_text nat_list_eq_equiv };
}

/// Parcels are equal where they hold the same and stand at the same place. It takes no memory.
impl PartialEq for Parcel {
    ghost eq = { λ parcel other. bytes_eq (parcel_text parcel) (parcel_text other) };

    ghost laws = { on_per parcel_text (partial_equiv_from_equiv nat_list_eq_equiv) };

    fn eq(&self, other: &Parcel) -> bool
        ensures texts { result ≡ bytes_eq (parcel_text self.now) (parcel_text other.now) }
        ensures same { IsTrue result ↔ (self.now ≡ other.now) }
    {
        self.place == other.place && self.load == other.load
    }
}

impl Eq for Parcel {
    ghost laws = { on_equiv parcel_text nat_list_eq_equiv };
}
