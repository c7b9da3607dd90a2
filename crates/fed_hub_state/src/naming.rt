// The names by which contracts know what threads share.
use std::marker::{Brand, PhantomData};
use std::sync::ledger::Ledger;

/// What a server's threads share, by the names that no other server's bear: a wire for each listed server, in the order of their places, and
/// the place of the own one among them; a board; and the ledgers of the events and of the EDUs that clients were told of, which are cut into
/// so many parts.
///
/// A value under a lock is known by its type alone: so each type whose values have to agree on these names is generic over them.
pub trait Naming {
    ghost use Rattle.std.specs.Prelude.{List, ℕ};
    ghost use Rattle.fed_journal.specs.declared.parcel.Parcel.{Parcel};
    ghost use Rattle.fed_wires.specs.WireId.{WireId};
    ghost use Rattle.fed_wires.specs.Board.{BoardId};

    ghost wires: { List (WireId Parcel) };

    ghost own: { ℕ };

    ghost board: { BoardId };

    ghost events: { ℕ };

    ghost edus: { ℕ };

    ghost parts: { ℕ };
}

impl Naming for Brand {
    ghost use Rattle.std.specs.Prelude.{[]};
    ghost use Rattle.fed_wires.specs.Board.{no_board};

    ghost wires = { [] };

    ghost own = { 0 };

    ghost board = { no_board };

    ghost events = { 0 };

    ghost edus = { 0 };

    ghost parts = { 0 };
}

/// The ledger of the events that clients were told of.
pub struct EventLedger<N: Naming>(PhantomData<N>);

impl<N: Naming> Ledger for EventLedger<N> {
    ghost name = { N.events };

    ghost parts = { N.parts };
}

/// The ledger of the EDUs that clients were told of.
pub struct EduLedger<N: Naming>(PhantomData<N>);

impl<N: Naming> Ledger for EduLedger<N> {
    ghost name = { N.edus };

    ghost parts = { N.parts };
}
