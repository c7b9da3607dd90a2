//! The sections: what a thread does while it holds locks. Each is one function that is lent what lies under them, and what it does is the
//! definition of the same step at a server of one thread.
//!
//! No section waits for room in a wire. One that sends takes in a credit for each parcel first, and where a wire has none it answers `Full`,
//! and all is as it was. The thread then lets its locks go, waits for a credit of that wire (`fed_wires::Credits`), takes the locks, lays it in
//! ([`SendingJournal::give`]) and tries again.
ghost use Rattle.std.specs.Prelude.{◌≡◌, ◌<◌, ◌≤◌, length, None, All, IfErr, OnOk, OnErr};
ghost use Rattle.fed_journal.specs.Edu.{edu_fault_of};
ghost use Rattle.fed_outbox.specs.Outbox.{cut, can_cut};
ghost use Rattle.fed_outbox.specs.Answering.{failed_once, due_told, answered, answer_told};
ghost use Rattle.fed_journal.specs.declared.offered.Offered.TheVariants as offered;
ghost use Rattle.fed_journal.specs.declared.parcel.Load.TheVariants.{Edu};
ghost use Rattle.fed_journal.specs.Offered.{load_of};
ghost use Rattle.fed_room_contract.specs.declared.verdict.Verdict.TheVariants.{Accepted};
ghost use Rattle.fed_room.specs.Room.{room_of, room_rules, IsPrepared};
ghost use Rattle.fed_hub_state.specs.Applying.{EventIsApplied};
ghost use Rattle.fed_hub_state.specs.CloseFault.{CloseFullIsOf};
ghost use Rattle.fed_hub_state.specs.EnterFault.{FullIsOf};
ghost use Rattle.fed_hub_state.specs.Sections.{IsRefused, IsCollected, EventIsOffered, EduIsOffered, OutboxIsClosed};
ghost use Rattle.fed_hub_state.specs.ShuttingDown.{ShutsDown};
ghost use Rattle.fed_hub_state.specs.Spreading.{AreAll, dests_of};

use crate::client_token::ClientToken;
use crate::kept_room::KeptRoom;
use crate::naming::Naming;
use crate::seated_outbox::SeatedOutbox;
use crate::sending_journal::{CloseFault, EnterFault, SendingJournal};
use crate::unplaced::Unplaced;
use fed_dest::{ServerIndex, ServerSet};
use fed_event::Checked;
use fed_journal::{Offered, Parcel};
use fed_json::Json;
use fed_outbox::{OutboxFault, Settlement};
use fed_room_contract::{Applied, Prepared, Stopped};
use fed_wires::Board;
use std::alloc::Global;
use std::sync::Wait;

/// An event that a room has made of a draft, on its way into the journal: equal ones for the journal and for the room's inputs, the servers that
/// it goes to, and its load for each of them.
#[derive(Drop)]
pub struct Outgoing {
    pub prepared: Prepared,
    pub offered: Offered,
    pub input: Checked,
    pub dests: ServerSet,
    pub loads: Vec<Unplaced>,
}

/// Offer: an event that its room has made and accepts enters the journal, with its destinations, goes over the wires to those whose outboxes are
/// open, and is stored in the room. The room's lock is taken before the journal's. As `SendingJournal::enter`.
///
/// # Errors
///
/// In this order; all is then as it was: `ShutDown`, `Limit`, `Memory`, `Full`.
pub fn offer<N: Naming, R: Wait>(
    rt: &R,
    room: &mut KeptRoom,
    journal: &mut SendingJournal<N>,
    client: &mut ClientToken<N>,
    outgoing: Outgoing,
) -> Result<u64, EnterFault>
    requires part { 0 < client.old.parts }
    requires prepared { IsPrepared room.old.room outgoing.prepared }
    requires accepted { room_rules.decide (room_of room.old.room).stored outgoing.prepared.event ≡ Accepted }
    requires free { 0 < room.old.free }
    requires equal { (outgoing.offered ≡ offered.Event outgoing.prepared.event) × (outgoing.input ≡ outgoing.prepared.event) }
    requires within { All (λ d. d < length N.wires) outgoing.dests }
    requires dests { dests_of outgoing.loads.items ≡ outgoing.dests }
    requires same { AreAll (load_of outgoing.offered) outgoing.loads.items }
    ensures full { IfErr result (FullIsOf N.wires) }
    ensures offered { EventIsOffered outgoing.prepared outgoing.dests (room_of room.old.room) journal.old client.old result (room_of room.new.room) journal.new client.new }
{
    let Outgoing {
        prepared,
        offered,
        input,
        dests,
        loads,
    } = outgoing;
    let number = journal.enter(rt, client, offered, dests, loads)?;
    room.commit(prepared, input);
    Ok(number)
}

/// OfferEdu: an ephemeral data unit without a fault enters the journal, with its destinations, and goes over the wires to those whose outboxes
/// are open. `loads` has its load for each of the destinations. As `SendingJournal::enter`.
///
/// # Errors
///
/// In this order; all is then as it was: `ShutDown`, `Limit`, `Memory`, `Full`.
pub fn offer_edu<N: Naming, R: Wait>(
    rt: &R,
    journal: &mut SendingJournal<N>,
    client: &mut ClientToken<N>,
    edu: Json,
    dests: ServerSet,
    loads: Vec<Unplaced>,
) -> Result<u64, EnterFault>
    requires part { 0 < client.old.parts }
    requires edu { edu_fault_of edu ≡ None }
    requires within { All (λ d. d < length N.wires) dests }
    requires dests { dests_of loads.items ≡ dests }
    requires same { AreAll (Edu edu) loads.items }
    ensures full { IfErr result (FullIsOf N.wires) }
    ensures offered { EduIsOffered edu dests journal.old client.old result journal.new client.new }
{
    journal.enter(rt, client, Offered::Edu(edu), dests, loads)
}

/// Close: the outbox for a destination is closed, where it is open; the end goes over its wire, or comes back and the outbox is lost.
///
/// # Errors
///
/// In this order; all is then as it was: `Limit`, `Memory`, `Full`, each only where it is open.
pub fn close<N: Naming, R: Wait>(
    rt: &R,
    journal: &mut SendingJournal<N>,
    dest: ServerIndex,
) -> Result<bool, CloseFault>
    requires { dest < length N.wires }
    ensures full { IfErr result (CloseFullIsOf N.wires) }
    ensures closed { OutboxIsClosed dest journal.old result journal.new }
{
    journal.close(rt, dest)
}

/// Close, in turn for all servers but the own one whose outboxes are open; nothing is offered from then on. As `SendingJournal::shut_down`.
///
/// # Errors
///
/// In this order; all is then as it was: `Limit`, `Memory`, `Full`.
pub fn shut_down<N: Naming, R: Wait>(
    rt: &R,
    journal: &mut SendingJournal<N>,
    own: ServerIndex,
) -> Result<(), CloseFault>
    requires { own ≡ N.own }
    ensures full { IfErr result (CloseFullIsOf N.wires) }
    ensures shut { ShutsDown (length N.wires) N.own journal.old result journal.new }
{
    journal.shut_down(rt, own)
}

/// Collect: a parcel that was received goes into its outbox.
///
/// # Errors
///
/// The parcel and why it is not accepted; then the outbox is as it was. `Ended` and `WrongPlace` where it does not come next, told without
/// memory; `Memory` of an event or an EDU that does.
pub fn collect<N: Naming>(
    outbox: &mut SeatedOutbox<N>,
    parcel: Parcel,
) -> Result<(), (Parcel, OutboxFault)>
    ensures collected { OnOk result (IsCollected parcel outbox.old outbox.new) }
    ensures refused { IfErr result (λ e. (e.0 ≡ parcel) × IsRefused parcel outbox.old e.1) }
    ensures same { OnErr result (outbox.new ≡ outbox.old) }
{
    outbox.outbox.accept(parcel)
}

/// Cut: makes the next transaction, where none is unanswered and something waits; whether it made one.
pub fn cut<N: Naming>(outbox: &mut SeatedOutbox<N>, now: u64) -> bool
    requires { now ≤ 9007199254740991 }
    ensures cut { outbox.new ≡ cut outbox.old now }
    ensures told { result ≡ can_cut outbox.old }
{
    outbox.outbox.cut(now).is_some()
}

/// Failed: the sending of the unanswered transaction failed; when it is due again, where there is one.
pub fn failed<N: Naming>(outbox: &mut SeatedOutbox<N>, now: u64) -> Option<u64>
    requires { now ≤ 9007199254740991 }
    ensures failed { outbox.new ≡ failed_once outbox.old now }
    ensures told { result ≡ due_told outbox.old now }
{
    outbox.outbox.failed_once(now)
}

/// Settle: transaction `n` was answered with this status, or with what is no answer that can be read. The outbox's word of the board is
/// raised to the count of the events that are settled then.
pub fn settle<N: Naming>(
    outbox: &mut SeatedOutbox<N>,
    board: &Board,
    n: u64,
    status: Option<u16>,
    now: u64,
) -> Settlement
    requires board { board.now.id ≡ N.board }
    requires now { now ≤ 9007199254740991 }
    ensures settled { outbox.new ≡ answered outbox.old n status now }
    ensures told { result ≡ answer_told outbox.old n status }
{
    let settlement = outbox.outbox.answered(n, status, now);
    board.raise(&mut outbox.seat, outbox.outbox.acked());
    settlement
}

/// Apply: an event that was received goes to its room, and all that is then ready is stored. `input` is an equal event, which is kept among
/// the room's inputs.
///
/// # Errors
///
/// `Stopped` where memory runs out, with how far the room came: the event comes back where the room did not receive it, and is as it was then.
pub fn apply(
    alloc: Global,
    room: &mut KeptRoom,
    event: Checked,
    input: Checked,
) -> Result<Applied, Stopped>
    requires { input ≡ event }
    ensures { EventIsApplied event room.old result room.new }
{
    room.apply(alloc, event, input)
}
