// An outbox, and the seat that owns its word of the board.
ghost use Rattle.std.specs.Prelude.{◌≡◌, ◌<◌, length};
ghost use Rattle.fed_outbox.specs.Outbox.{new_outbox};
ghost use Rattle.fed_wires.specs.Board.{word_count};
ghost use Rattle.fed_wires.specs.Seat.{one_word};

use crate::naming::Naming;
use fed_dest::ServerIndex;
use fed_outbox::Outbox;
use fed_wires::{Board, Seat};
use std::alloc::Global;
use std::marker::{Model, PhantomData};

/// The outbox of one destination, and the seat that owns its word of the board, which is the count of the events that are settled.
///
/// Contracts see it as the outbox.
#[derive(Drop)]
pub struct SeatedOutbox<N: Naming> {
    pub(crate) outbox: Outbox,
    pub(crate) seat: Seat,
    of: PhantomData<N>,
}

impl<N: Naming> Model for SeatedOutbox<N> {
    ghost use Rattle.std.specs.Prelude.{◌≡◌, length};
    ghost use Rattle.fed_outbox.specs.Outbox.{OutboxState, outbox_code};
    ghost use Rattle.fed_wires.specs.Seat.{one_word};

    ghost Value = { OutboxState };

    ghost coded = { outbox_code };

    ghost view = { λ o. o.outbox };

    ghost invariant = { λ o. (o.seat.board ≡ N.board) × (o.seat.owned ≡ one_word o.outbox.dest (length o.outbox.settled)) };
}

impl<N: Naming> SeatedOutbox<N> {
    /// The outbox of a destination, for which nothing was accepted, with the seat that owns its word.
    pub fn new(alloc: Global, dest: ServerIndex, seat: Seat) -> SeatedOutbox<N>
        requires board { seat.board ≡ N.board }
        requires word { seat.owned ≡ one_word dest 0 }
        ensures { result ≡ new_outbox dest }
    {
        SeatedOutbox {
            outbox: Outbox::new(alloc, dest),
            seat,
            of: PhantomData,
        }
    }

    /// The outbox.
    pub fn outbox(&self) -> &Outbox
        ensures { result.now ≡ self.now }
    {
        &self.outbox
    }

    /// What its word of the board is, by one look: the count of the events that are settled. It waits for nobody and takes no memory.
    pub fn shown(&mut self, board: &Board) -> u64
        requires board { board.now.id ≡ N.board }
        requires word { self.old.dest < word_count N.board }
        ensures count { result ≡ length self.old.settled }
        ensures same { self.new ≡ self.old }
    {
        board.load(&mut self.seat, self.outbox.dest().place())
    }

    /// The outbox, and the seat, which owns the word of its destination and has raised it to the count of the events that are settled.
    pub fn part(self) -> (Outbox, Seat)
        ensures outbox { result.0 ≡ self }
        ensures board { result.1.board ≡ N.board }
        ensures word { result.1.owned ≡ one_word self.dest (length self.settled) }
    {
        let SeatedOutbox {
            outbox,
            seat,
            of: _,
        } = self;
        (outbox, seat)
    }
}
