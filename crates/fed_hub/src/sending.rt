// What the thread that sends to one destination does, turn after turn.
ghost use Rattle.std.specs.Prelude.{◌≡◌, ◌≤◌, ◌<◌, true, length, IfOk, MatchResult};
ghost use Rattle.fed_outbox.specs.Outbox.{cut};
ghost use Rattle.fed_exchange.specs.Messages.{asked_of, bytes_sent};
ghost use Rattle.fed_hub_rooms.specs.declared.ran.Ran.TheVariants.{Drained};
ghost use Rattle.fed_hub.specs.Held.{GoesOn};
ghost use Rattle.fed_hub.specs.Sending.{HasCome, IsAsked, IsNext, IsNextAt, IsTurnOf, LastsSo, came_of, entered, turn_of};

use crate::carrier::{Carrier, CarrierFault};
use crate::collected::Collected;
use crate::gate::Gate;
use crate::hub::Hub;
use crate::tokens::SenderToken;
use fed_dest::ServerIndex;
use fed_event::Keys;
use fed_exchange::{request_bytes, status_in};
use fed_hub_rooms::Ran;
use fed_hub_serving::ServingNaming;
use fed_hub_state::{Naming, SeatedOutbox, sections};
use fed_json::NoMemory;
use fed_wires::{Board, CAPACITY};
use std::alloc::Global;
use std::sync::Wait;

// What is to be done for a destination, by its outbox.
#[derive(Drop)]
enum Act {
    /// Nothing more: it has ended.
    Drain,
    /// The unanswered transaction, of this number, is to be brought by this request.
    Exchange(u64, Vec<u8>),
    /// The unanswered transaction is due again at this moment.
    Pause(u64),
    /// Nothing is unanswered, and nothing waits.
    Idle,
}

// What a turn came to.
enum Turn {
    Made(Next),
    Last(Ran),
}

// What the next turn is to do: collect, at most so many parcels before it acts, or act.
#[derive(Clone, Copy)]
enum Next {
    Collect(usize),
    Act,
}

// What came of an exchange.
enum Came {
    /// A reply of this status, or one that can't be read.
    Reply(Option<u16>),
    /// No reply.
    Nothing,
}

impl<N: Naming + ServingNaming, K: Keys + Drop> Hub<N, K> {
    /// Delivers to the token's destination, in at most so many turns: moves what comes over its wire into its outbox, makes transactions of it,
    /// has each brought by the carrier until it is answered with 200, and settles it (Server-Server API, "Transactions"). A turn is one
    /// collect, one exchange or one pause. Before each exchange and each pause the wire is emptied: all that lay in it when the collects began
    /// is in the outbox then. A carrier that fails, and a reply that can't be read, count as a failure, after which the transaction is due
    /// again later. No lock is held while the carrier or the gate is at work.
    ///
    /// What it tells:
    ///
    /// - `Drained` where the end came over the wire, and all that the outbox accepted before it is settled
    /// - `TurnsSpent` where all turns were made
    /// - `Memory` where memory ran out. A parcel in hand stays in the token, and the call may be made again
    pub fn run_sender<R: Wait, C: Carrier, G: Gate>(
        &self,
        rt: &R,
        alloc: Global,
        token: &mut SenderToken<N>,
        carrier: &mut C,
        gate: &mut G,
        turns: u64,
    ) -> Ran
        ensures goes_on { GoesOn token.old token.new }
        ensures drained { result ≡ Drained → token.new.ended ≡ true }
        ensures faults { C.faults carrier.old ≤ C.faults carrier.new }
    {
        let mut next = Next::Collect(CAPACITY);
        for _ in 0..turns {
            let turn = match next {
                Next::Collect(most) => self.collect_turn(rt, token, false, most),
                Next::Act => self.act(rt, alloc, token, carrier, gate),
            };
            match turn {
                Turn::Made(then) => next = then,
                Turn::Last(ran) => return ran,
            }
        }
        Ran::TurnsSpent
    }

    // One collect, with or without waiting, of so many at most before it acts.
    fn collect_turn<R: Wait>(
        &self,
        rt: &R,
        token: &mut SenderToken<N>,
        wait: bool,
        most: usize,
    ) -> Turn
        ensures collected { IsTurnOf most token.old result token.new }
        ensures goes_on { GoesOn token.old token.new }
        ensures drained { LastsSo result token.new }
    {
        turn_of(self.collect(rt, token, wait), most)
    }

    // One exchange, one pause, or, where there is nothing to do, one collect that waits.
    fn act<R: Wait, C: Carrier, G: Gate>(
        &self,
        rt: &R,
        alloc: Global,
        token: &mut SenderToken<N>,
        carrier: &mut C,
        gate: &mut G,
    ) -> Turn
        ensures goes_on { GoesOn token.old token.new }
        ensures drained { LastsSo result token.new }
        ensures faults { C.faults carrier.old ≤ C.faults carrier.new }
    {
        let now = gate.now();
        let Ok(act) = self.next_act(rt, alloc, token.dest, now) else {
            return Turn::Last(Ran::Memory);
        };
        match act {
            Act::Drain if token.ended => Turn::Last(Ran::Drained),
            Act::Exchange(number, request) => {
                let told = self.exchange(rt, alloc, token.dest, carrier, gate, number, &request);
                match told {
                    Ok(()) => Turn::Made(Next::Collect(CAPACITY)),
                    Err(NoMemory) => Turn::Last(Ran::Memory),
                }
            }
            Act::Pause(until) => {
                gate.pause(until);
                Turn::Made(Next::Collect(CAPACITY))
            }
            Act::Drain | Act::Idle => self.collect_turn(rt, token, true, CAPACITY),
        }
    }

    // What is to be done for a destination.
    fn next_act<R: Wait>(
        &self,
        rt: &R,
        alloc: Global,
        dest: ServerIndex,
        now: u64,
    ) -> Result<Act, NoMemory>
        requires dest { dest < length N.wires }
        requires now { now ≤ 9007199254740991 }
        ensures { IfOk result (λ act. IsNextAt self.now dest now act) }
    {
        let outbox = &self.outboxes[dest.place()];
        let name = self.list.name(dest);
        act_of(
            alloc,
            &mut outbox.lock(rt),
            &self.keys,
            self.epoch,
            name,
            now,
        )
    }

    // Brings the request of a transaction to its destination by one exchange, and enters what came of it.
    fn exchange<R: Wait, C: Carrier, G: Gate>(
        &self,
        rt: &R,
        alloc: Global,
        dest: ServerIndex,
        carrier: &mut C,
        gate: &mut G,
        number: u64,
        request: &[u8],
    ) -> Result<(), NoMemory>
        requires dest { dest < length N.wires }
        requires asked { IsAsked self.now dest number request.now }
        ensures faults { C.faults carrier.old ≤ C.faults carrier.new }
    {
        gate.before(dest, number);
        let came = what_came(alloc, carrier.exchange(alloc, dest, request))?;
        let now = gate.now();
        let outbox = &self.outboxes[dest.place()];
        enter(&mut outbox.lock(rt), &self.board, number, came, now);
        Ok(())
    }
}

// What is to be done behind a collect, where at most so many are moved before it acts.
fn turn_of(told: Collected, most: usize) -> Turn
    ensures { result ≡ turn_of told most }
{
    match told {
        Collected::Moved if most > 1 => Turn::Made(Next::Collect(most - 1)),
        Collected::Moved | Collected::Nothing | Collected::Closed => Turn::Made(Next::Act),
        Collected::Memory => Turn::Last(Ran::Memory),
    }
}

// What came of an exchange, by what the carrier told.
fn what_came(alloc: Global, told: Result<Vec<u8>, CarrierFault>) -> Result<Came, NoMemory>
    ensures { MatchResult told (λ reply. IfOk result (HasCome reply.items)) (λ fault. result ≡ came_of fault) }
{
    match told {
        Ok(reply) => Ok(Came::Reply(status_in(alloc, &reply)?)),
        Err(CarrierFault::Failed) => Ok(Came::Nothing),
        Err(CarrierFault::Memory) => Err(NoMemory),
    }
}

// Enters what came of the exchange of this transaction.
fn enter<N: Naming>(outbox: &mut SeatedOutbox<N>, board: &Board, number: u64, came: Came, now: u64)
    requires board { board.now.id ≡ N.board }
    requires now { now ≤ 9007199254740991 }
    ensures { outbox.new ≡ entered outbox.old number came now }
{
    match came {
        Came::Reply(status) => {
            sections::settle(outbox, board, number, status, now);
        }
        Came::Nothing => {
            sections::failed(outbox, now);
        }
    }
}

// What is to be done, by the outbox after a cut. A request is made of a transaction that is due, for the server of this name.
fn act_of<N: Naming, K: Keys>(
    alloc: Global,
    outbox: &mut SeatedOutbox<N>,
    keys: &K,
    epoch: u64,
    dest: &str,
    now: u64,
) -> Result<Act, NoMemory>
    requires { now ≤ 9007199254740991 }
    ensures cut { outbox.new ≡ cut outbox.old now }
    ensures next { IfOk result (λ act. IsNext (λ t. bytes_sent (asked_of (K.own_name keys.now) dest.now epoch t) (K.own_key keys.now) (K.own_signature keys.now)) outbox.new now act) }
{
    sections::cut(outbox, now);
    let outbox = outbox.outbox();
    if outbox.ended() {
        return Ok(Act::Drain);
    }
    let Some(transaction) = outbox.unanswered() else {
        return Ok(Act::Idle);
    };
    if !outbox.due(now) {
        return Ok(Act::Pause(outbox.due_at()));
    }
    let request = request_bytes(alloc, &transaction, epoch, keys, dest)?;
    Ok(Act::Exchange(transaction.number, request))
}
