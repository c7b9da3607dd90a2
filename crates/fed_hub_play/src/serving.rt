// What a thread does that serves.
use crate::cast::Cast;
use crate::dice::Dice;
use crate::hall::ServeDesk;
use crate::order::{Delivery, Order};
use crate::texts::served_text;
use fed_event::StandIn;
use fed_hub::{Hub, Naming, ServeToken, Served, ServingNaming};
use std::alloc::{AllocError, Global};
use std::io::{self, ErrorKind, Read, Write};
use std::sync::Wait;
use std::time::Clock;

// How often a request comes again at most.
const CALLS: usize = 100_000;

/// Does what is asked until it is to leave.
pub(crate) fn server<N: Naming + ServingNaming, R: Wait + Clock>(
    cast: &Cast<R>,
    hub: &Hub<N, StandIn>,
    serving: &ServeDesk,
    token: &mut ServeToken<N>,
) {
    for order in serving.desk.orders.iter(&cast.rt) {
        if !goes_on(cast, hub, serving, token, order) {
            return;
        }
    }
}

// Does what is asked; whether the thread goes on.
fn goes_on<N: Naming + ServingNaming, R: Wait + Clock>(
    cast: &Cast<R>,
    hub: &Hub<N, StandIn>,
    serving: &ServeDesk,
    token: &mut ServeToken<N>,
    order: Order,
) -> bool {
    match order {
        Order::Leave => false,
        Order::Answer { request } => {
            let reply = reply_to(&cast.rt, cast.alloc, hub, token, &request);
            serving.reply(&cast.rt, reply);
            true
        }
        Order::Bring(delivery) => {
            let told = bring(cast, hub, token, &delivery);
            serving.desk.tell(&cast.rt, cast.alloc, told);
            true
        }
        _ => {
            let word = String::from_str(cast.alloc, "not for a server");
            serving.desk.tell(&cast.rt, cast.alloc, word);
            true
        }
    }
}

// The reply to a request, or no bytes where it is not written whole.
fn reply_to<N: Naming + ServingNaming, R: Wait + Clock>(
    rt: &R,
    alloc: Global,
    hub: &Hub<N, StandIn>,
    token: &mut ServeToken<N>,
    request: &[u8],
) -> Vec<u8> {
    let mut reader = request;
    let mut written = Vec::new(alloc);
    match hub.serve_one(rt, alloc, token, &mut reader, &mut written) {
        Served::Answered(_) => written,
        _ => Vec::new(alloc),
    }
}

// What becomes of requests: what was told of the last one, and how many were told just that.
fn bring<N: Naming + ServingNaming, R: Wait + Clock>(
    cast: &Cast<R>,
    hub: &Hub<N, StandIn>,
    token: &mut ServeToken<N>,
    delivery: &Delivery,
) -> Result<String, AllocError> {
    let mut writer = ScriptWriter::new(delivery);
    let mut last = Served::EndedEarly;
    let mut same = 0u64;
    for request in &delivery.requests {
        let served = bring_one(cast, hub, token, delivery, request, &mut writer);
        same = if served == last {
            same.saturating_add(1)
        } else {
            1
        };
        last = served;
    }
    served_text(cast.alloc, last, same)
}

// What becomes of a request. Where a writer fails now and then, it comes again until its reply is written whole.
fn bring_one<N: Naming + ServingNaming, R: Wait + Clock>(
    cast: &Cast<R>,
    hub: &Hub<N, StandIn>,
    token: &mut ServeToken<N>,
    delivery: &Delivery,
    request: &[u8],
    writer: &mut ScriptWriter,
) -> Served {
    let mut served = Served::WriteFault;
    for _ in 0..CALLS {
        let mut reader = HeldReader {
            cast,
            held: delivery.held.as_deref(),
            bytes: request,
        };
        served = hub.serve_one(&cast.rt, cast.alloc, token, &mut reader, writer);
        if delivery.seed.is_none() || served != Served::WriteFault {
            return served;
        }
    }
    served
}

// Gives its bytes, where it is held once a count was raised; it raises another one, `reading`, when it is asked.
#[derive(Drop)]
struct HeldReader<'a, R: Wait + Clock> {
    cast: &'a Cast<R>,
    held: Option<&'a str>,
    bytes: &'a [u8],
}

impl<R: Wait + Clock> Read for HeldReader<'_, R> {
    fn read(&mut self, buffer: &mut [u8]) -> io::Result<usize> {
        if let Some(name) = self.held {
            let (rt, counts) = (&self.cast.rt, &self.cast.counts);
            counts.raise(rt, self.cast.alloc, "reading");
            if !counts.waits_for(rt, name, 1) {
                return Err(io::Error::from(ErrorKind::TimedOut));
            }
        }
        self.bytes.read(buffer)
    }
}

// Throws away what it is given, and fails at one write, or at one of eight by a seed.
#[derive(Drop)]
struct ScriptWriter {
    writes: u64,
    fails_at: Option<u64>,
    dice: Option<Dice>,
}

impl ScriptWriter {
    fn new(delivery: &Delivery) -> ScriptWriter {
        ScriptWriter {
            writes: 0,
            fails_at: delivery.fails_at,
            dice: delivery.seed.map(|seed| Dice::new(seed, 8)),
        }
    }

    // Whether the next write fails.
    fn fails(&mut self) -> bool {
        self.writes = self.writes.saturating_add(1);
        match &mut self.dice {
            Some(dice) => dice.throw() % 8 == 0,
            None => self.fails_at == Some(self.writes),
        }
    }
}

impl Write for ScriptWriter {
    fn write(&mut self, buffer: &[u8]) -> io::Result<usize> {
        if self.fails() {
            return Err(io::Error::from(ErrorKind::BrokenPipe));
        }
        Ok(buffer.len())
    }

    fn flush(&mut self) -> io::Result<()> {
        Ok(())
    }
}
