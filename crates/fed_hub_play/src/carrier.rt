// A carrier that brings requests to hubs of the same program, as a script says.
ghost use Rattle.std.specs.Prelude.{◌≤◌};

use crate::counts::Counts;
use crate::dice::Dice;
use crate::exchange::{Exchange, Step};
use crate::hall::Posts;
use fed_dest::ServerIndex;
use fed_hub::{Carrier, CarrierFault, FaultCount};
use std::alloc::Global;
use std::mem;
use std::sync::{Arc, Wait};
use std::time::Clock;

// What a server answers that has no hub.
const OK: &[u8] = b"HTTP/1.1 200 OK\r\nContent-Length: 11\r\n\r\n{\"pdus\":{}}";

/// A carrier that brings requests to hubs of the same program, as a script says.
#[derive(Drop)]
pub(crate) struct PostCarrier<R: Wait + Clock> {
    way: Way<R>,
    plan: Plan,
    // the targets of the requests that were brought, in one line
    targets: String,
    faults: FaultCount,
}

// What brings requests to the listed servers, and the counts by which exchanges wait.
#[derive(Drop)]
struct Way<R: Wait + Clock> {
    rt: R,
    posts: Arc<Posts>,
    counts: Arc<Counts>,
}

// The exchanges that are planned, and how many of them were made.
#[derive(Drop)]
struct Plan {
    exchanges: Vec<Exchange>,
    made: usize,
    dice: Dice,
}

impl<R: Wait + Clock> PostCarrier<R> {
    /// A carrier whose exchanges all pass.
    pub(crate) fn new(
        rt: R,
        alloc: Global,
        posts: Arc<Posts>,
        counts: Arc<Counts>,
    ) -> PostCarrier<R> {
        PostCarrier {
            way: Way { rt, posts, counts },
            plan: Plan {
                exchanges: Vec::new(alloc),
                made: 0,
                dice: Dice::none(),
            },
            targets: String::new(alloc),
            faults: FaultCount::new(),
        }
    }

    /// The targets of the requests that were brought since this was asked last, in order.
    pub(crate) fn targets(&mut self, alloc: Global) -> String {
        mem::replace(&mut self.targets, String::new(alloc))
    }

    /// Plans the next exchanges. All behind them pass.
    pub(crate) fn plan(&mut self, exchanges: Vec<Exchange>) {
        self.plan.exchanges = exchanges;
        self.plan.made = 0;
    }
}

impl<R: Wait + Clock> Carrier for PostCarrier<R> {
    ghost faults = { λ c. c.faults.count };

    fn exchange(
        &mut self,
        alloc: Global,
        dest: ServerIndex,
        request: &[u8],
    ) -> Result<Vec<u8>, CarrierFault> {
        note_target(&mut self.targets, request);
        match self.plan.exchange(alloc, &self.way, dest, request) {
            Ok(reply) => Ok(reply),
            Err(fault) => self.faults.fail(alloc, fault),
        }
    }
}

// Notes the target of a request behind the others.
fn note_target(targets: &mut String, request: &[u8]) {
    let target = request
        .split(|byte| *byte == b' ')
        .nth(1)
        .unwrap_or(b"none");
    let Ok(target) = str::from_utf8(target) else {
        return;
    };
    if !targets.is_empty() {
        let _ = targets.push_str(", ");
    }
    let _ = targets.push_str(target);
}

impl Plan {
    // What the next exchange comes to.
    fn exchange<R: Wait + Clock>(
        &mut self,
        alloc: Global,
        way: &Way<R>,
        dest: ServerIndex,
        request: &[u8],
    ) -> Result<Vec<u8>, CarrierFault> {
        let Some(exchange) = self.exchanges.get(self.made) else {
            return way.pass(alloc, dest, request);
        };
        if !exchange.stays {
            self.made = self.made.saturating_add(1);
        }
        let mut reply = Err(CarrierFault::Failed);
        for step in &exchange.steps {
            reply = match step {
                Step::Dice(seed) => {
                    let thrown = throw(&mut self.dice, *seed, dest);
                    way.thrown(alloc, dest, request, thrown)
                }
                other => way.take(alloc, dest, request, other, reply)?,
            };
        }
        reply
    }
}

// The next number that is thrown for a destination, by this seed where none was given before.
fn throw(dice: &mut Dice, seed: u64, dest: ServerIndex) -> u64 {
    if dice.is_unused() {
        *dice = Dice::new(seed, dest.place() as u64);
    }
    dice.throw()
}

impl<R: Wait + Clock> Way<R> {
    // What comes of a request that is brought.
    fn pass(
        &self,
        alloc: Global,
        dest: ServerIndex,
        request: &[u8],
    ) -> Result<Vec<u8>, CarrierFault> {
        let request = copy_of(alloc, request)?;
        match self.posts.bring(&self.rt, dest.place(), request) {
            Some(reply) => reply.ok_or(CarrierFault::Failed),
            None => copy_of(alloc, OK),
        }
    }

    // What a number that was thrown makes of a request.
    fn thrown(
        &self,
        alloc: Global,
        dest: ServerIndex,
        request: &[u8],
        thrown: u64,
    ) -> Result<Vec<u8>, CarrierFault> {
        match thrown % 8 {
            0 => Err(CarrierFault::Failed),
            1 => {
                let _lost = self.pass(alloc, dest, request)?;
                Err(CarrierFault::Failed)
            }
            2 => Ok(half(self.pass(alloc, dest, request)?)),
            3 => status(alloc, 500),
            _ => self.pass(alloc, dest, request),
        }
    }

    // What comes of one step, behind what came of those before it. An `Err` outside ends the exchange.
    fn take(
        &self,
        alloc: Global,
        dest: ServerIndex,
        request: &[u8],
        step: &Step,
        reply: Result<Vec<u8>, CarrierFault>,
    ) -> Result<Result<Vec<u8>, CarrierFault>, CarrierFault> {
        match step {
            Step::Pass | Step::Dice(_) => Ok(self.pass(alloc, dest, request)),
            Step::Fail => Err(CarrierFault::Failed),
            Step::WantMemory => Err(CarrierFault::Memory),
            Step::Cut => Ok(reply.map(half)),
            Step::Status(number) => Ok(status(alloc, *number)),
            Step::Raise(name) => {
                self.counts.raise(&self.rt, alloc, name);
                Ok(reply)
            }
            Step::Hold { name, least } => {
                if !self.counts.waits_for(&self.rt, name, *least) {
                    return Err(CarrierFault::Failed);
                }
                Ok(reply)
            }
        }
    }
}

fn copy_of(alloc: Global, bytes: &[u8]) -> Result<Vec<u8>, CarrierFault> {
    Vec::from_slice(alloc, bytes).map_err(|_| CarrierFault::Memory)
}

// The first half of a reply.
fn half(reply: Vec<u8>) -> Vec<u8> {
    let mut reply = reply;
    let half = reply.len() / 2;
    reply.truncate(half);
    reply
}

// A reply of this status.
fn status(alloc: Global, number: u16) -> Result<Vec<u8>, CarrierFault> {
    match format!(in alloc; "HTTP/1.1 {number} Told\r\nContent-Length: 2\r\n\r\n{{}}") {
        Ok(text) => Ok(text.into_bytes()),
        Err(_) => Err(CarrierFault::Memory),
    }
}
