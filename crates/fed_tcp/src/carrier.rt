// What brings requests over TCP.
ghost use Rattle.std.specs.Prelude.{◌≡◌, ◌≤◌, ◌<◌};

use crate::connector::Connector;
use crate::deadline::Deadline;
use crate::timed::Timed;
use crate::watch::Watch;
use fed_connection::{Unanswered, exchange};
use fed_dest::ServerIndex;
use fed_http::HttpFault;
use fed_hub::{Carrier, CarrierFault, FaultCount};
use fed_stream::Unread;
use std::alloc::Global;
use std::io;
use std::marker::Model;
use std::net::{SocketAddr, TcpStream};
use std::time::{Clock, Duration};

/// Brings requests over TCP, a connection for each, to the addresses of the listed servers. Each exchange has so many seconds, from connecting to the
/// last byte of its reply. One that isn't done by then is a failure, as are a socket that can't be connected, a connection that is cut and bytes
/// that are no reply. `R` opens the sockets and has the clock: the runtime, or a reference to it.
///
/// Contracts see its count of faults.
#[derive(Drop)]
pub struct TcpCarrier<R: Connector + Clock + Copy> {
    net: R,
    addresses: Vec<Option<SocketAddr>>,
    within: u64,
    faults: FaultCount,
}

impl<R: Connector + Clock + Copy> Model for TcpCarrier<R> {
    ghost use Rattle.std.specs.Prelude.{ℕ};
    ghost use Rattle.std.specs.Coded.{coded_ℕ};

    ghost Value = { ℕ };

    ghost coded = { coded_ℕ };

    ghost view = { λ c. c.faults.count };
}

impl<R: Connector + Clock + Copy> TcpCarrier<R> {
    /// A carrier to these addresses of the listed servers, by their places, with `within` seconds for each exchange. A server that has no address
    /// here is never reached.
    pub fn new(net: R, addresses: Vec<Option<SocketAddr>>, within: u64) -> TcpCarrier<R>
        ensures { result ≡ 0 }
    {
        TcpCarrier {
            net,
            addresses,
            within,
            faults: FaultCount::new(),
        }
    }

    /// How many exchanges gave no reply.
    pub fn faults(&self) -> u64
        ensures { result ≡ self.now }
    {
        self.faults.count
    }

    // One exchange over a connection of its own.
    fn bring(
        &self,
        alloc: Global,
        dest: ServerIndex,
        request: &[u8],
    ) -> Result<Vec<u8>, CarrierFault> {
        let Some(Some(address)) = self.addresses.get(dest.place()) else {
            return Err(CarrierFault::Failed);
        };
        let mut deadline = Deadline::new(&self.net, self.within);
        let Ok(stream) = connect(&self.net, *address, &mut deadline) else {
            return Err(CarrierFault::Failed);
        };
        let socket = &stream;
        match exchange_over(alloc, Timed { socket, deadline }, request) {
            Ok(reply) => Ok(reply),
            Err(Unanswered::Unread(Unread::Http(HttpFault::Memory))) => Err(CarrierFault::Memory),
            Err(_) => Err(CarrierFault::Failed),
        }
    }
}

impl<R: Connector + Clock + Copy> Carrier for TcpCarrier<R> {
    ghost faults = { λ c. c };

    fn exchange(
        &mut self,
        alloc: Global,
        dest: ServerIndex,
        request: &[u8],
    ) -> Result<Vec<u8>, CarrierFault> {
        match self.bring(alloc, dest, request) {
            Ok(reply) => Ok(reply),
            Err(fault) => self.faults.fail(alloc, fault),
        }
    }
}

// A connection that is there before a deadline, and lets no small write wait for the next one.
fn connect<R: Connector, W: Watch>(
    net: &R,
    address: SocketAddr,
    deadline: &mut Deadline<W>,
) -> io::Result<TcpStream> {
    let wait = Duration::from_millis(deadline.left()?);
    let stream = net.connect_within(address, wait)?;
    stream.set_nodelay(true)?;
    Ok(stream)
}

// A request over a connection, and its reply.
fn exchange_over<R: Clock>(
    alloc: Global,
    mut reader: Timed<&TcpStream, &R>,
    request: &[u8],
) -> Result<Vec<u8>, Unanswered> {
    let mut writer = reader;
    exchange(alloc, &mut reader, &mut writer, request)
}
