// The server that sends.
ghost use Rattle.std.specs.Prelude.{◌≤◌};

use crate::counting::events_among;
use crate::course::Course;
use crate::faults::LoopFault;
use crate::load::Load;
use crate::setups::{ROOM, USERS, setup};
use fed_event::StandIn;
use fed_hub::{
    ClientToken, Crew, FinishFault, Gate, Hub, Muster, Naming, Outcome, Ran, Report, RoomToken,
    Seat, SenderToken, ServeToken, ServingNaming, Tokens, run_crew,
};
use fed_json::{Json, NoMemory};
use fed_room_contract::Draft;
use fed_tcp::{ClockGate, Connector, PATIENCE, TcpCarrier};
use std::alloc::Global;
use std::net::SocketAddr;
use std::sync::Wait;
use std::sync::atomic::{AtomicU64, Ordering};
use std::thread::{self, Threads};
use std::time::{Clock, Duration};

/// After how many turns it is seen whether a fault was met meanwhile.
const TURNS: u64 = 64;

/// How many events a has in its journal, and how many it shows as delivered to b.
#[derive(Clone, Copy)]
pub(crate) struct Offered {
    pub(crate) sent: u64,
    pub(crate) delivered: u64,
}

/// How many threads a has beside those of its clients: one that leads, one that delivers to b, one for the room, and two that would serve, one for each
/// listed server.
const OTHERS: u32 = 5;

/// The threads of a, and how many of its clients are not done. `R` is the runtime, or a reference to it.
#[derive(Drop)]
struct Sender<'a, R> {
    rt: R,
    alloc: Global,
    course: &'a Course,
    muster: Muster,
    left: AtomicU64,
}

/// Runs a until all events are sent and delivered, or until a fault is met, and then closes the door of b.
pub(crate) fn send_all<R>(rt: R, alloc: Global, course: &Course) -> Result<Offered, LoopFault>
where
    R: Threads + Wait + Clock + Connector + Copy + Sync,
{
    let offered = run(rt, alloc, course);
    if let Err(fault) = offered {
        course.faults.note(&rt, fault);
    }
    course.door.close(&rt);
    offered
}

fn run<R>(rt: R, alloc: Global, course: &Course) -> Result<Offered, LoopFault>
where
    R: Threads + Wait + Clock + Connector + Copy + Sync,
{
    if !course.muster.begins(&rt) {
        return Err(LoopFault::NoThreads);
    }
    let clients = course.load.clients;
    let sender = Sender {
        rt,
        alloc,
        course,
        muster: Muster::new(OTHERS + clients as u32),
        left: AtomicU64::new(clients),
    };
    run_crew(&rt, alloc, setup(alloc, 0)?, clients, 0, sender)?
}

impl<R: Wait + Clock + Connector + Copy> Crew<StandIn> for Sender<'_, R> {
    // Nobody reads the board.
    fn lead<N: Naming + ServingNaming>(&self, _hub: &Hub<N, StandIn>, _readers: &mut [Seat<N>]) {
        self.muster.begins(&self.rt);
    }

    // Sends a client's share. The last one shuts the server down, so that all who wait for more of it end.
    fn client<N: Naming + ServingNaming>(
        &self,
        hub: &Hub<N, StandIn>,
        place: usize,
        token: &mut ClientToken<N>,
    ) {
        if !self.muster.begins(&self.rt) {
            return;
        }
        if let Err(fault) = self.send_share(hub, token, place as u64) {
            self.course.faults.note(&self.rt, fault);
        }
        if self.left.fetch_sub(1, Ordering::SeqCst) == 1 {
            shut_down(&self.rt, hub);
        }
    }

    fn sender<N: Naming + ServingNaming>(&self, hub: &Hub<N, StandIn>, token: &mut SenderToken<N>) {
        if !self.muster.begins(&self.rt) {
            return;
        }
        if let Err(fault) = self.deliver(hub, token) {
            self.course.faults.note(&self.rt, fault);
        }
    }

    fn room<N: Naming + ServingNaming>(&self, hub: &Hub<N, StandIn>, token: &mut RoomToken<N>) {
        if !self.muster.begins(&self.rt) {
            return;
        }
        if hub.run_room(&self.rt, self.alloc, token, u64::MAX) == Ran::Memory {
            self.course.faults.note(&self.rt, LoopFault::Memory);
        }
    }

    // Nothing is sent to it.
    fn server<N: Naming + ServingNaming>(
        &self,
        _hub: &Hub<N, StandIn>,
        _place: usize,
        _token: &mut ServeToken<N>,
    ) {
        self.muster.begins(&self.rt);
    }
}

impl<R: Drop> Outcome<StandIn> for Sender<'_, R> {
    type Out = Result<Offered, LoopFault>;

    fn runs_on<N: Naming + ServingNaming>(
        &mut self,
        _alloc: Global,
        _hub: &Hub<N, StandIn>,
        _tokens: &mut Tokens<N>,
    ) -> bool {
        false
    }

    fn end<N: Naming + ServingNaming>(
        self,
        _alloc: Global,
        ended: Result<Report<N>, FinishFault>,
    ) -> Result<Offered, LoopFault> {
        if !self.muster.is_complete() {
            return Err(LoopFault::NoThreads);
        }
        let report = ended?;
        let delivered = report.delivered.get(1).ok_or(LoopFault::BadSetup)?;
        Ok(Offered {
            sent: events_among(report.journal.entries()) as u64,
            delivered: *delivered,
        })
    }
}

impl<R: Wait + Clock + Connector + Copy> Sender<'_, R> {
    // Sends the events of the client at a place: event i is sent by the client at place (i - 1) mod the count of clients.
    fn send_share<N: Naming + ServingNaming>(
        &self,
        hub: &Hub<N, StandIn>,
        client: &mut ClientToken<N>,
        place: u64,
    ) -> Result<(), LoopFault> {
        let mut gate = ClockGate::new(self.rt);
        let Load { events, clients } = self.course.load;
        for number in 0..events {
            if number % clients == place {
                let draft = draft(self.alloc, number + 1, gate.now())?;
                hub.send(&self.rt, self.alloc, client, draft)?;
            }
        }
        Ok(())
    }

    // Delivers to b until all is settled, or until a fault is met: one of a socket is not tried again.
    fn deliver<N: Naming + ServingNaming>(
        &self,
        hub: &Hub<N, StandIn>,
        token: &mut SenderToken<N>,
    ) -> Result<(), LoopFault> {
        let (rt, alloc) = (self.rt, self.alloc);
        let addresses = addresses(alloc, self.course.door.address())?;
        let mut carrier = TcpCarrier::new(rt, addresses, PATIENCE);
        let mut gate = ClockGate::new(rt);
        for _ in rt.forever() {
            let ran = hub.run_sender(&rt, alloc, token, &mut carrier, &mut gate, TURNS);
            if self.is_delivered(ran, carrier.faults())? {
                return Ok(());
            }
        }
        unreachable!()
    }

    // Whether there is nothing more to deliver, where some turns ended so and the carrier has met so many faults.
    fn is_delivered(&self, ran: Ran, faults: u64) -> Result<bool, LoopFault> {
        match ran {
            Ran::Memory => Err(LoopFault::Memory),
            _ if faults > 0 => Err(LoopFault::Io),
            Ran::Drained => Ok(true),
            Ran::TurnsSpent => Ok(self.course.faults.first(&self.rt).is_some()),
        }
    }
}

// The addresses of both servers, of which that of b is known.
fn addresses(alloc: Global, b: SocketAddr) -> Result<Vec<Option<SocketAddr>>, NoMemory> {
    let mut addresses = Vec::new(alloc);
    addresses.push(None)?;
    addresses.push(Some(b))?;
    Ok(addresses)
}

// A message with this number.
fn draft(alloc: Global, number: u64, at_ms: u64) -> Result<Draft, LoopFault>
    requires { at_ms ≤ 9007199254740991 }
{
    Ok(Draft {
        room: String::from_str(alloc, ROOM)?,
        sender: String::from_str(alloc, USERS[0])?,
        kind: String::from_str(alloc, "m.room.message")?,
        state_key: None,
        content: content(alloc, number)?,
        at_ms,
    })
}

fn content(alloc: Global, number: u64) -> Result<Json, NoMemory> {
    let body = format!(in alloc; "event {number}")?;
    let kind = String::from_str(alloc, "m.text")?;
    let mut content = Json::empty_object(alloc);
    content.put(String::from_str(alloc, "body")?, Json::from(body))?;
    content.put(String::from_str(alloc, "msgtype")?, Json::from(kind))?;
    Ok(content)
}

/// Shuts a server down. It is tried again where there is no memory for it: the threads of the server wait until it is done.
pub(crate) fn shut_down<N: Naming + ServingNaming, R: Wait + Clock>(rt: &R, hub: &Hub<N, StandIn>) {
    for _ in rt.forever() {
        if hub.shut_down(rt).is_ok() {
            return;
        }
        thread::sleep(rt, Duration::from_millis(10));
    }
}
