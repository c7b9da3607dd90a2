// The server, from its hub to its end.
use crate::setup::{PEER, setup};
use crate::stop::Stop;
use crate::words::Words;
use fed_event::StandIn;
use fed_hub::{FinishFault, Gate, Muster, Naming, Outcome, Report, ServingNaming, Setup, run_crew};
use fed_journal::Entry;
use fed_tcp::{ClockGate, Door};
use std::alloc::Global;
use std::io::BufRead;
use std::net::{Ipv4Addr, Net, SocketAddr, TcpListener, TcpStream};
use std::sync::{Mutex, Wait};
use std::thread::Threads;
use std::time::Clock;

/// How many events a server took from the other one, and how many it sent.
#[derive(Clone, Copy)]
pub(crate) struct Counts {
    pub(crate) took: usize,
    pub(crate) sent: usize,
}

/// What the threads of the server share beside its hub: the runtime, where it serves, where the other server does, how many seconds a request and
/// an exchange may take, the input, the threads, which begin together, and why it ends early, if it does. `R` is the runtime, or a reference to it.
#[derive(Drop)]
pub(crate) struct Server<R, I> {
    pub(crate) rt: R,
    pub(crate) alloc: Global,
    pub(crate) door: Door,
    pub(crate) peer: Option<SocketAddr>,
    pub(crate) within: u64,
    pub(crate) input: Mutex<I>,
    pub(crate) muster: Muster,
    pub(crate) stop: Mutex<Option<Stop>>,
}

/// Runs the server until the input ends.
pub(crate) fn run<R, I>(rt: R, alloc: Global, words: Words, input: I) -> Result<Counts, Stop>
where
    R: Threads
        + Wait
        + Clock
        + Eprint
        + Net<Stream = TcpStream, Listener = TcpListener>
        + Copy
        + Sync,
    I: BufRead + Send + Drop,
{
    let door = Door::open(&rt, SocketAddr::from((Ipv4Addr::LOCALHOST, 0)))?;
    let address = door.address();
    eprintln!(rt; "{address}")?;
    let setup = setup(alloc, ClockGate::new(rt).now(), words.peers).ok_or(Stop::NotSetUp)?;
    let threads = threads_of(&setup);
    let server = Server {
        rt,
        alloc,
        door,
        peer: words.peer,
        within: words.within,
        input: Mutex::new(input),
        muster: Muster::new(threads),
        stop: Mutex::new(None),
    };
    // It has one client, and nobody reads its board.
    run_crew(&rt, alloc, setup, 1, 0, server)?
}

// How many threads there are: one that leads, one for the client, one for each other server and for each room, and one that serves for each listed
// server.
fn threads_of(setup: &Setup<StandIn>) -> u32 {
    let listed = setup.list.len() as u32;
    let rooms = u32::try_from(setup.rooms.len()).unwrap_or(u32::MAX);
    listed.wrapping_mul(2).wrapping_add(rooms).wrapping_add(1)
}

impl<R: Drop, I: Drop> Outcome<StandIn> for Server<R, I> {
    type Out = Result<Counts, Stop>;

    fn end<N: Naming + ServingNaming>(
        self,
        _alloc: Global,
        ended: Result<Report<N>, FinishFault>,
    ) -> Result<Counts, Stop> {
        if !self.muster.is_complete() {
            return Err(Stop::NoThreads);
        }
        if let Some(stop) = self.stop.into_inner() {
            return Err(stop);
        }
        Ok(counted(&ended?))
    }
}

fn counted<N: Naming + ServingNaming>(report: &Report<N>) -> Counts {
    let entries = report.journal.entries().iter();
    let sent = entries.filter(|it| matches!(it, Entry::Event(..)));
    Counts {
        took: taken(report),
        sent: sent.count(),
    }
}

fn taken<N: Naming + ServingNaming>(report: &Report<N>) -> usize {
    let mut count = 0usize;
    for _ in report.inbox.inbox().taken(PEER) {
        count = count.saturating_add(1);
    }
    count
}
