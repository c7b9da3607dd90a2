// How the seats at a hub's board end.
ghost use Rattle.std.specs.Prelude.{◌≡◌, ◌+◌, ◌++◌, ◌≤◌, [], All, IfOk, length, vec_capacity};
ghost use Rattle.std.specs.List.{AllZip};
ghost use Rattle.fed_wires.specs.Board.{word_count};
ghost use Rattle.fed_hub.specs.Report.{AreInPlace, NoReaderSawMore, settled_counts};
ghost use Rattle.fed_hub.specs.Seats.{HasRoom, IsReaderAt, IsSeatOf};

use crate::tokens::Seat;
use fed_hub_state::{Naming, SeatedOutbox};
use fed_json::NoMemory;
use fed_outbox::Outbox;
use fed_wires::Board;
use std::alloc::Global;

/// Room for the outboxes of a hub, for all seats at its board, and for what the board shows of each outbox.
#[derive(Drop)]
pub(crate) struct Spare {
    outboxes: Vec<Outbox>,
    seats: Vec<fed_wires::Seat>,
    delivered: Vec<u64>,
}

impl Spare {
    /// Room for so many outboxes, with the seats of their words, and for so many readers' seats.
    pub(crate) fn new(alloc: Global, outboxes: usize, readers: usize) -> Result<Spare, NoMemory>
        ensures { IfOk result (HasRoom outboxes (outboxes + readers)) }
    {
        let Some(seats) = outboxes.checked_add(readers) else {
            return Err(NoMemory);
        };
        Ok(Spare {
            outboxes: Vec::with_capacity(alloc, outboxes)?,
            seats: Vec::with_capacity(alloc, seats)?,
            delivered: Vec::with_capacity(alloc, outboxes)?,
        })
    }
}

/// Ends a board with all of its seats, those of the outboxes and those of the readers, and gives the outboxes and what it showed for the server of
/// each. There is room for all of that, so that it takes no memory.
pub(crate) fn end_board<N: Naming>(
    board: Board,
    spare: Spare,
    mut seated: Vec<SeatedOutbox<N>>,
    readers: Vec<Seat<N>>,
) -> (Vec<Outbox>, Vec<u64>)
    requires board { (board.id ≡ N.board) × (word_count N.board ≡ length seated.items) × (board.readers ≡ length readers.items) }
    requires places { AreInPlace seated.items }
    requires room { HasRoom (length seated.items) (length seated.items + length readers.items) spare }
    ensures same { result.0.items ≡ seated.items }
    ensures shown { result.1.items ≡ settled_counts seated.items }
    ensures seen { NoReaderSawMore seated.items readers.items }
{
    let Spare {
        mut outboxes,
        mut seats,
        mut delivered,
    } = spare;
    look(&mut seated, &board, &mut delivered);
    part(seated, &mut outboxes, &mut seats);
    gather(readers, &mut seats);
    board.finish(seats);
    (outboxes, delivered)
}

// Looks at the board for the server of each outbox. There is room for what it shows.
fn look<N: Naming>(outboxes: &mut [SeatedOutbox<N>], board: &Board, shown: &mut Vec<u64>)
    requires board { board.now.id ≡ N.board }
    requires places { AreInPlace outboxes.old }
    requires words { length outboxes.old ≤ word_count N.board }
    requires room { (shown.old.items ≡ []) × (length outboxes.old ≤ vec_capacity shown.old) }
    ensures shown { shown.new.items ≡ settled_counts outboxes.old }
    ensures same { outboxes.new ≡ outboxes.old }
{
    for place in 0..outboxes.len() {
        let count = outboxes[place].shown(board);
        shown.push_reserved(count);
    }
}

// Parts the outboxes from the seats that own their words. There is room for both.
fn part<N: Naming>(
    seated: Vec<SeatedOutbox<N>>,
    outboxes: &mut Vec<Outbox>,
    seats: &mut Vec<fed_wires::Seat>,
)
    requires outboxes { (outboxes.old.items ≡ []) × (length seated.items ≤ vec_capacity outboxes.old) }
    requires seats { (seats.old.items ≡ []) × (length seated.items ≤ vec_capacity seats.old) }
    ensures outboxes { outboxes.new.items ≡ seated.items }
    ensures seats { AllZip (IsSeatOf N.board) seated.items seats.new.items }
    ensures room { vec_capacity seats.new ≡ vec_capacity seats.old }
{
    for one in seated {
        let (outbox, seat) = one.part();
        outboxes.push_reserved(outbox);
        seats.push_reserved(seat);
    }
}

// Puts the seats of readers behind the others. There is room for them.
fn gather<N: Naming>(readers: Vec<Seat<N>>, seats: &mut Vec<fed_wires::Seat>)
    requires { length seats.old.items + length readers.items ≤ vec_capacity seats.old }
    ensures seats { seats.new.items ≡ seats.old.items ++ readers.items }
    ensures readers { All (IsReaderAt N.board) readers.items }
{
    for reader in readers {
        seats.push_reserved(reader.seat);
    }
}
