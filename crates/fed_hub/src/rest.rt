// A hub whose locks were opened for good.
ghost use Rattle.std.specs.Prelude.{◌≡◌, true, length, Ok, IfOk, IfErr, OnOk};
ghost use Rattle.fed_hub.specs.Finishing.{IsCompared, IsFirst, IsInTurn};
ghost use Rattle.fed_hub.specs.Report.{AreInPlace, IsFitting, NoReaderSawMore, parts_of, settled_counts};
ghost use Rattle.fed_hub.specs.Rest.{HasSpace, IsOpen, IsSameKept};
ghost use Rattle.fed_hub.specs.Tokens.{AreAllTokens, AreNoneMissing};

use crate::faults::FinishFault;
use crate::finishing::may_finish;
use crate::hub::Hub;
use crate::locking::{lock, unlock};
use crate::reception::Desk;
use crate::report::Report;
use crate::rooms::OpenRooms;
use crate::seats::{Spare, end_board};
use crate::tokens::{Seat, Tokens};
use crate::unlocked::Unlocked;
use fed_dest::{List, ServerIndex};
use fed_event::Keys;
use fed_hub_serving::ServingNaming;
use fed_hub_state::{KeptRoom, Naming, SeatedOutbox, SendingJournal};
use fed_wires::{Board, Credits};
use std::alloc::Global;
use std::marker::Model;
use std::sync::Mutex;

/// All of a hub but what lay under its locks, which can go back without memory, and room to end it without memory. Contracts see it as the hub.
#[derive(Drop)]
pub(crate) struct Rest<N: Naming + ServingNaming, K: Keys + Drop> {
    list: List,
    own: ServerIndex,
    keys: K,
    epoch: u64,
    rooms: OpenRooms,
    locks: Vec<Mutex<SeatedOutbox<N>>>,
    desk: Desk<N>,
    credits: Credits,
    board: Board,
    clients: u64,
    readers: usize,
    spare: Spare,
}

impl<N: Naming + ServingNaming, K: Keys + Drop> Model for Rest<N, K> {
    ghost use Rattle.std.specs.Prelude.{◌≡◌, ◌+◌, ◌<◌, ◌≤◌, [], length, vec_capacity};
    ghost use Rattle.fed_wires.specs.Board.{word_count};
    ghost use Rattle.fed_hub.specs.Hub.{HubShape, ServesBy};
    ghost use Rattle.fed_hub.specs.Seats.{HasRoom};

    ghost Value = { HubShape };

    ghost view = { λ h. record { list = h.list; own = h.own; name = K.own_name h.keys; epoch = h.epoch; rooms = h.rooms.ids; clients = h.clients; readers = h.readers } };

    ghost invariant = { λ h. (length h.list ≡ length N.wires) × (h.own ≡ N.own) × (h.own < length h.list)
        × (h.board.id ≡ N.board) × (word_count N.board ≡ length N.wires) × (h.board.readers ≡ h.readers)
        × (h.locks.items ≡ []) × (length N.wires ≤ vec_capacity h.locks) × (h.credits ≡ length N.wires)
        × ServesBy N.checks (length N.rooms) N.known (K.checks h.keys) h.desk h.rooms × HasRoom (length N.wires) (length N.wires + h.readers) h.spare };
}

// Room for what lies under the locks of a hub, and to end it.
#[derive(Drop)]
struct Space<N: Naming> {
    rooms: Vec<KeptRoom>,
    outboxes: Vec<SeatedOutbox<N>>,
    spare: Spare,
}

// Room for so many rooms, outboxes and readers of a hub that is at its end, by its journal; or why there is none.
fn make_space<N: Naming>(
    alloc: Global,
    journal: &SendingJournal<N>,
    counted: Result<(), FinishFault>,
    rooms: usize,
    outboxes: usize,
    readers: usize,
) -> Result<Space<N>, FinishFault>
    ensures room { IfOk result (λ space. HasSpace rooms outboxes readers space) }
    ensures at_end { OnOk result ((journal.now.is_shut ≡ true) × (counted ≡ Ok tt)) }
    ensures in_turn { IfErr result (IsFirst counted) }
{
    if let Err(fault) = may_finish(journal, counted) {
        return Err(fault);
    }
    Ok(Space {
        rooms: Vec::with_capacity(alloc, rooms)?,
        outboxes: Vec::with_capacity(alloc, outboxes)?,
        spare: Spare::new(alloc, outboxes, readers)?,
    })
}

impl<N: Naming + ServingNaming, K: Keys + Drop> Hub<N, K> {
    // Opens all locks of a hub that is at its end, and gives what lay under them. Else the hub stays as it is.
    pub(crate) fn open(
        mut self,
        alloc: Global,
        tokens: &Tokens<N>,
    ) -> Result<(Rest<N, K>, Unlocked<N>), (Hub<N, K>, FinishFault)>
        ensures opened { IfOk result (λ r. (r.0 ≡ self) × IsOpen (length N.wires) (length N.rooms) r.1) }
        ensures at_end { IfOk result (λ r. (r.1.journal.is_shut ≡ true) × AreAllTokens self (length N.rooms) tokens.now) }
        ensures same { IfErr result (λ e. e.0 ≡ self) }
        ensures in_turn { IfErr result (λ e. IsInTurn (AreNoneMissing self (length N.rooms) tokens.now) (AreAllTokens self (length N.rooms) tokens.now) e.1) }
    {
        let counted = self.count(tokens);
        let (rooms, outboxes) = (self.rooms.len(), self.outboxes.len());
        let journal = self.journal.into_inner();
        let space = match make_space(alloc, &journal, counted, rooms, outboxes, self.readers) {
            Ok(space) => space,
            Err(fault) => {
                self.journal = Mutex::new(journal);
                return Err((self, fault));
            }
        };
        let (mut locks, mut outboxes) = (self.outboxes, space.outboxes);
        unlock(&mut locks, &mut outboxes);
        let (open_rooms, rooms) = self.rooms.open(space.rooms);
        let (desk, inbox) = self.reception.open();
        let rest = Rest {
            list: self.list,
            own: self.own,
            keys: self.keys,
            epoch: self.epoch,
            rooms: open_rooms,
            locks,
            desk,
            credits: self.credits,
            board: self.board,
            clients: self.clients,
            readers: self.readers,
            spare: space.spare,
        };
        let unlocked = Unlocked {
            journal,
            outboxes,
            inbox,
            rooms,
        };
        Ok((rest, unlocked))
    }
}

impl<N: Naming + ServingNaming, K: Keys + Drop> Rest<N, K> {
    // Whether what lay under the locks fits together, and fits what the threads hold: it is `Unequal` exactly where it doesn't, or `Memory`.
    pub(crate) fn compare(
        &self,
        alloc: Global,
        unlocked: &Unlocked<N>,
        tokens: &Tokens<N>,
    ) -> Result<(), FinishFault>
        ensures { IsCompared (IsFitting self.now.list self.now.own N.known (parts_of unlocked.now) tokens.now) result }
    {
        if !unlocked.fits(alloc, &self.list, self.own, self.desk.known(), tokens)? {
            return Err(FinishFault::Unequal);
        }
        Ok(())
    }

    // Ends the hub, and its board with all seats, those of the readers among them. It takes no memory.
    pub(crate) fn end(self, unlocked: Unlocked<N>, readers: Vec<Seat<N>>) -> Report<N>
        requires opened { IsOpen (length N.wires) (length N.rooms) unlocked }
        requires places { AreInPlace unlocked.outboxes.items }
        requires readers { length readers.items ≡ self.readers }
        ensures same { IsSameKept unlocked result }
        ensures shown { result.delivered.items ≡ settled_counts unlocked.outboxes.items }
        ensures seen { NoReaderSawMore unlocked.outboxes.items readers.items }
    {
        let Unlocked {
            journal,
            outboxes,
            inbox,
            rooms,
        } = unlocked;
        let (outboxes, delivered) = end_board(self.board, self.spare, outboxes, readers);
        Report {
            journal,
            outboxes,
            inbox,
            rooms,
            delivered,
        }
    }

    // Puts what lay under the locks under them again. It takes no memory.
    pub(crate) fn close(self, unlocked: Unlocked<N>) -> Hub<N, K>
        requires { IsOpen (length N.wires) (length N.rooms) unlocked }
        ensures { result ≡ self }
    {
        let (mut locks, mut outboxes) = (self.locks, unlocked.outboxes);
        lock(&mut outboxes, &mut locks);
        let rooms = self.rooms.close(unlocked.rooms);
        let reception = self.desk.close(unlocked.inbox);
        Hub {
            list: self.list,
            own: self.own,
            keys: self.keys,
            epoch: self.epoch,
            rooms,
            journal: Mutex::new(unlocked.journal),
            outboxes: locks,
            reception,
            credits: self.credits,
            board: self.board,
            clients: self.clients,
            readers: self.readers,
        }
    }
}
