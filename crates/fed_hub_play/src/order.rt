// What the threads of a server are asked, and how they answer.
use crate::exchange::Exchange;
use crossbeam_channel::{Receiver, Sender, bounded};
use std::alloc::{AllocError, Global};
use std::sync::Wait;

/// What a thread of a server is asked to do. All of it is texts and numbers: what they stand for is made by the thread.
#[derive(Drop)]
pub(crate) enum Order {
    /// A client sends an event.
    Send(EventWords),
    /// A client sends many messages.
    SendMany(ManyWords),
    /// A client offers an EDU.
    OfferEdu(EduWords),
    /// The thread that leads tells that it is there.
    Begin,
    /// The outbox for a destination is closed.
    Close { dest: String },
    /// The hub is shut down.
    ShutDown,
    /// How much was delivered to a destination is looked up.
    Delivered { dest: String },
    /// How many events of these ids a room has is counted.
    CountStored { room: String, ids: Vec<String> },
    /// What a room and the inbox show is told.
    Show { room: String, origin: String },
    /// The lock of the inbox is looked at, until a count is reached.
    Look { until: String },
    /// Parcels are collected, so many at most.
    Collect { most: u64, waits: bool },
    /// Parcels are collected until none comes.
    Drain,
    /// The thread that sends makes so many turns.
    Turns { turns: u64 },
    /// It makes a few turns at a time, by a seed, until it is drained.
    Deliver { seed: u64 },
    /// What its next exchanges come to.
    Carry(Vec<Exchange>),
    /// What its gate was asked is told.
    TellAsked,
    /// What its carrier was given is told.
    TellBrought,
    /// The thread of a room makes so many turns.
    Store { turns: u64 },
    /// It makes a few turns at a time, by a seed, until it is drained.
    StoreAll { seed: u64 },
    /// A thread that serves answers requests.
    Bring(Delivery),
    /// It answers the request of a carrier, which gets the reply.
    Answer { request: Vec<u8> },
    /// The thread that leads says what is done with the hub once all threads have returned, and returns.
    Stop(Stop),
    /// The thread returns.
    Leave,
}

/// What an event is made of.
#[derive(Drop)]
pub(crate) struct EventWords {
    pub(crate) room: String,
    pub(crate) sender: String,
    pub(crate) kind: String,
    pub(crate) state_key: Option<String>,
    pub(crate) content: String,
}

/// How many messages a user sends, to one room after another; the destinations of an EDU that is offered behind each, if there are any; and under
/// which name it is counted how many were told.
#[derive(Drop)]
pub(crate) struct ManyWords {
    pub(crate) count: u64,
    pub(crate) rooms: Vec<String>,
    pub(crate) sender: String,
    pub(crate) edu_dests: Vec<String>,
    pub(crate) name: String,
}

/// What an EDU is made of, and the names of its destinations.
#[derive(Drop)]
pub(crate) struct EduWords {
    pub(crate) kind: String,
    pub(crate) dests: Vec<String>,
    pub(crate) content: String,
}

/// Requests that come to a server: once a count is reached, where there is one; by a writer that fails at one of its writes, counted from 1, or
/// now and then by a seed, where a request comes again until its reply is written whole.
#[derive(Drop)]
pub(crate) struct Delivery {
    pub(crate) requests: Vec<Vec<u8>>,
    pub(crate) held: Option<String>,
    pub(crate) fails_at: Option<u64>,
    pub(crate) seed: Option<u64>,
}

/// What is done with a hub once all of its threads have returned.
#[derive(Drop)]
pub(crate) enum Stop {
    /// It ends, where it can.
    Finish,
    /// It is given up.
    GiveUp,
    /// The token of the thread that sends to this place is let go, and the threads go on.
    DropSender(usize),
    /// The last client's token is let go, and the threads go on.
    DropClient,
    /// Two rooms of these ids change places, and the threads go on.
    SwapRooms(String, String),
}

/// Where a thread gets its orders, and tells what came of them.
#[derive(Drop)]
pub(crate) struct Desk {
    pub(crate) orders: Receiver<Order>,
    told: Sender<String>,
}

/// The other ends of a desk.
#[derive(Drop)]
pub(crate) struct Line {
    pub(crate) orders: Sender<Order>,
    told: Receiver<String>,
}

/// More than wait at a time. There is room for them from the first on, so that orders and what came of them are told where memory has run out.
pub(crate) const MOST_ORDERS: usize = 1_024;

/// A new desk, and its line.
pub(crate) fn new_desk(alloc: Global) -> Result<(Desk, Line), AllocError> {
    let (to_desk, orders) = bounded(alloc, MOST_ORDERS)?;
    let (told, from_desk) = bounded(alloc, MOST_ORDERS)?;
    let desk = Desk { orders, told };
    let line = Line {
        orders: to_desk,
        told: from_desk,
    };
    Ok((desk, line))
}

impl Desk {
    /// Tells what came of an order.
    pub(crate) fn tell<R: Wait>(&self, rt: &R, alloc: Global, text: Result<String, AllocError>) {
        let text = text.unwrap_or_else(|_| String::new(alloc));
        let _ = self.told.send(rt, text);
    }

    /// Tells a text that is always the same.
    pub(crate) fn tell_word<R: Wait>(&self, rt: &R, alloc: Global, word: &str) {
        self.tell(rt, alloc, String::from_str(alloc, word));
    }
}

impl Line {
    /// Asks the thread; whether it is still there.
    pub(crate) fn ask<R: Wait>(&self, rt: &R, order: Order) -> bool {
        self.orders.send(rt, order).is_ok()
    }

    /// What came of the next order; `None` where the thread is gone.
    pub(crate) fn answer<R: Wait>(&self, rt: &R) -> Option<String> {
        self.told.recv(rt).ok()
    }
}
