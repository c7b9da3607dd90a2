// What each thread of the server does, with the token that it holds.
ghost use Rattle.std.specs.Prelude.{◌≤◌};

use crate::server::Server;
use crate::setup::draft;
use crate::stop::Stop;
use fed_event::StandIn;
use fed_hub::{
    ClientToken, Crew, Gate, Hub, Naming, Ran, RoomToken, Seat, SenderToken, ServeToken,
    ServingNaming,
};
use fed_json::NoMemory;
use fed_tcp::{ClockGate, Connector, TcpCarrier, serve};
use std::alloc::Global;
use std::io::BufRead;
use std::net::SocketAddr;
use std::sync::Wait;
use std::thread::{self, Threads};
use std::time::{Clock, Duration};

/// After how many turns a thread that delivers looks whether the input has ended.
const TURNS: u64 = 64;

/// For how many milliseconds it goes on then.
const GRACE: u64 = 5_000;

impl<R, I> Crew<StandIn> for Server<R, I>
where
    R: Threads + Wait + Clock + Connector + Copy + Sync,
    I: BufRead + Send + Drop,
{
    // Nobody reads the board.
    fn lead<N: Naming + ServingNaming>(&self, _hub: &Hub<N, StandIn>, _readers: &mut [Seat<N>]) {
        self.muster.begins(&self.rt);
    }

    // Sends what the input has. Then later sends are refused, and whoever waits for more is told.
    fn client<N: Naming + ServingNaming>(
        &self,
        hub: &Hub<N, StandIn>,
        _place: usize,
        token: &mut ClientToken<N>,
    ) {
        if !self.muster.begins(&self.rt) {
            return;
        }
        if let Err(stop) = self.send_lines(hub, token) {
            *self.stop.lock(&self.rt) = Some(stop);
        }
        self.shut_down(hub);
        self.door.close(&self.rt);
    }

    // Delivers to another server. Where memory runs out it goes on later.
    fn sender<N: Naming + ServingNaming>(&self, hub: &Hub<N, StandIn>, token: &mut SenderToken<N>) {
        if !self.muster.begins(&self.rt) {
            return;
        }
        for _ in self.rt.forever() {
            if self.deliver(hub, token).is_ok() {
                return;
            }
            self.pause();
        }
    }

    // Stores what comes for a room, until the hub is shut down. Where memory runs out it goes on later.
    fn room<N: Naming + ServingNaming>(&self, hub: &Hub<N, StandIn>, token: &mut RoomToken<N>) {
        if !self.muster.begins(&self.rt) {
            return;
        }
        for _ in self.rt.forever() {
            if hub.run_room(&self.rt, self.alloc, token, u64::MAX) == Ran::Drained {
                return;
            }
            self.pause();
        }
    }

    // Answers requests until the input has ended, and tells the next thread that does. Where no connection is accepted, as where too many are open,
    // it is tried again.
    fn server<N: Naming + ServingNaming>(
        &self,
        hub: &Hub<N, StandIn>,
        _place: usize,
        token: &mut ServeToken<N>,
    ) {
        if !self.muster.begins(&self.rt) {
            return;
        }
        for _ in self.rt.forever() {
            if serve(&self.rt, self.alloc, hub, token, &self.door, self.within).is_ok() {
                break;
            }
            self.pause();
        }
        self.door.close(&self.rt);
    }
}

impl<R: Wait + Clock + Connector + Copy, I: BufRead + Drop> Server<R, I> {
    // Sends a message for each line of the input.
    fn send_lines<N: Naming + ServingNaming>(
        &self,
        hub: &Hub<N, StandIn>,
        client: &mut ClientToken<N>,
    ) -> Result<(), Stop> {
        let mut gate = ClockGate::new(self.rt);
        let mut input = self.input.lock(&self.rt);
        for line in (&mut *input).lines(self.alloc) {
            self.send_line(hub, client, &line?, gate.now())?;
        }
        Ok(())
    }

    fn send_line<N: Naming + ServingNaming>(
        &self,
        hub: &Hub<N, StandIn>,
        client: &mut ClientToken<N>,
        line: &str,
        at_ms: u64,
    ) -> Result<(), Stop>
        requires { at_ms ≤ 9007199254740991 }
    {
        let content = fed_json::read(self.alloc, line.as_bytes())?;
        let draft = draft(self.alloc, content, at_ms).ok_or(Stop::Memory)?;
        hub.send(&self.rt, self.alloc, client, draft)?;
        Ok(())
    }

    // Shuts the hub down. It is tried again where there is no memory for it: the other threads wait until it is done.
    fn shut_down<N: Naming + ServingNaming>(&self, hub: &Hub<N, StandIn>) {
        for _ in self.rt.forever() {
            if hub.shut_down(&self.rt).is_ok() {
                return;
            }
            self.pause();
        }
    }

    // Delivers until the input has ended and all is settled, and for `GRACE` behind that end at most.
    fn deliver<N: Naming + ServingNaming>(
        &self,
        hub: &Hub<N, StandIn>,
        token: &mut SenderToken<N>,
    ) -> Result<(), NoMemory> {
        let (rt, alloc) = (self.rt, self.alloc);
        let mut carrier = TcpCarrier::new(rt, addresses(alloc, self.peer)?, self.within);
        let mut gate = ClockGate::new(rt);
        let mut until = u64::MAX;
        for _ in rt.forever() {
            match hub.run_sender(&rt, alloc, token, &mut carrier, &mut gate, TURNS) {
                Ran::Drained => return Ok(()),
                Ran::Memory => return Err(NoMemory),
                Ran::TurnsSpent => {}
            }
            if self.door.is_closed() {
                let now = gate.now();
                until = until.min(now.saturating_add(GRACE));
                if now >= until {
                    return Ok(());
                }
            }
        }
        unreachable!()
    }

    // A pause before something is tried again.
    fn pause(&self) {
        thread::sleep(&self.rt, Duration::from_millis(10));
    }
}

// The addresses of the listed servers: that of the other one, and none of this one.
fn addresses(alloc: Global, peer: Option<SocketAddr>) -> Result<Vec<Option<SocketAddr>>, NoMemory> {
    let mut addresses = Vec::new(alloc);
    addresses.push(peer)?;
    addresses.push(None)?;
    Ok(addresses)
}
