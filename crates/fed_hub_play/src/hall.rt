// Where the threads of one server get their orders.
use crate::order::{Desk, Line, MOST_ORDERS, Order, Stop, new_desk};
use crossbeam_channel::{Receiver, Sender, bounded};
use std::alloc::{AllocError, Global};
use std::sync::{Arc, Mutex, Wait};

/// Where the threads of one server get their orders, by the places of their tokens, and what they share beside the hub.
#[derive(Drop)]
pub(crate) struct Hall {
    pub(crate) lead: Desk,
    pub(crate) clients: Vec<Desk>,
    /// One for each listed server.
    pub(crate) senders: Vec<Desk>,
    pub(crate) rooms: Vec<Desk>,
    /// One for each listed server.
    pub(crate) servers: Vec<ServeDesk>,
    /// What brings requests to the listed servers.
    pub(crate) posts: Arc<Posts>,
    /// What is done once all threads have returned.
    pub(crate) stop: Mutex<Option<Stop>>,
}

/// The same before anything brings requests from this server.
#[derive(Drop)]
pub(crate) struct Desks {
    lead: Desk,
    clients: Vec<Desk>,
    senders: Vec<Desk>,
    rooms: Vec<Desk>,
    servers: Vec<ServeDesk>,
}

impl Desks {
    /// The desks with what brings requests from this server to each listed one.
    pub(crate) fn with_posts(self, alloc: Global, posts: Posts) -> Result<Hall, AllocError> {
        let Desks {
            lead,
            clients,
            senders,
            rooms,
            servers,
        } = self;
        Ok(Hall {
            lead,
            clients,
            senders,
            rooms,
            servers,
            posts: Arc::new(alloc, posts)?,
            stop: Mutex::new(None),
        })
    }
}

/// What brings requests to the listed servers, by their places; `None` where one has no hub.
#[derive(Drop)]
pub(crate) struct Posts {
    pub(crate) posts: Vec<Option<Post>>,
}

impl Posts {
    /// The reply to a request that is brought to the server at a place: `None` where it has no hub, and in it `None` where there is no reply.
    pub(crate) fn bring<R: Wait>(
        &self,
        rt: &R,
        place: usize,
        request: Vec<u8>,
    ) -> Option<Option<Vec<u8>>> {
        match self.posts.get(place) {
            Some(Some(post)) => Some(post.bring(rt, request)),
            _ => None,
        }
    }
}

/// The desk of a thread that serves, which also gives replies to the carrier that brings it requests.
#[derive(Drop)]
pub(crate) struct ServeDesk {
    pub(crate) desk: Desk,
    replies: Sender<Vec<u8>>,
}

impl ServeDesk {
    /// Gives a reply to the carrier.
    pub(crate) fn reply<R: Wait>(&self, rt: &R, reply: Vec<u8>) {
        let _ = self.replies.send(rt, reply);
    }
}

/// What brings requests to one thread of another server that serves.
#[derive(Drop)]
pub(crate) struct Post {
    orders: Sender<Order>,
    replies: Receiver<Vec<u8>>,
}

impl Post {
    /// The reply to a request; `None` where the server is gone, or gives none.
    fn bring<R: Wait>(&self, rt: &R, request: Vec<u8>) -> Option<Vec<u8>> {
        self.orders.send(rt, Order::Answer { request }).ok()?;
        self.replies.recv(rt).ok()
    }
}

/// The lines to the threads of one server.
#[derive(Drop)]
pub(crate) struct Lines {
    pub(crate) lead: Line,
    pub(crate) clients: Vec<Line>,
    pub(crate) senders: Vec<Line>,
    pub(crate) rooms: Vec<Line>,
    pub(crate) servers: Vec<Line>,
    /// Where the carriers of the listed servers get their replies, until they are given to them.
    replies: Vec<Option<Receiver<Vec<u8>>>>,
}

/// How many threads of each kind a server has.
#[derive(Clone, Copy)]
pub(crate) struct Numbers {
    pub(crate) clients: usize,
    pub(crate) servers: usize,
    pub(crate) rooms: usize,
}

/// The desks of a server with so many threads, which nothing brings requests from yet, and the lines to them.
pub(crate) fn new_hall(alloc: Global, numbers: Numbers) -> Result<(Desks, Lines), AllocError> {
    let (lead, lead_line) = new_desk(alloc)?;
    let (clients, client_lines) = new_desks(alloc, numbers.clients)?;
    let (senders, sender_lines) = new_desks(alloc, numbers.servers)?;
    let (rooms, room_lines) = new_desks(alloc, numbers.rooms)?;
    let (desks, server_lines) = new_desks(alloc, numbers.servers)?;
    let (servers, replies) = serve_desks(alloc, desks)?;
    let hall = Desks {
        lead,
        clients,
        senders,
        rooms,
        servers,
    };
    let lines = Lines {
        lead: lead_line,
        clients: client_lines,
        senders: sender_lines,
        rooms: room_lines,
        servers: server_lines,
        replies,
    };
    Ok((hall, lines))
}

fn new_desks(alloc: Global, count: usize) -> Result<(Vec<Desk>, Vec<Line>), AllocError> {
    let mut desks = Vec::with_capacity(alloc, count)?;
    let mut lines = Vec::with_capacity(alloc, count)?;
    for _ in 0..count {
        let (one, line) = new_desk(alloc)?;
        desks.push(one)?;
        lines.push(line)?;
    }
    Ok((desks, lines))
}

fn serve_desks(
    alloc: Global,
    desks: Vec<Desk>,
) -> Result<(Vec<ServeDesk>, Vec<Option<Receiver<Vec<u8>>>>), AllocError> {
    let mut servers = Vec::with_capacity(alloc, desks.len())?;
    let mut all = Vec::with_capacity(alloc, desks.len())?;
    for desk in desks {
        let (replies, receiver) = bounded(alloc, MOST_ORDERS)?;
        servers.push(ServeDesk { desk, replies })?;
        all.push(Some(receiver))?;
    }
    Ok((servers, all))
}

impl Lines {
    /// What brings the requests of the server at a place to this server, once.
    pub(crate) fn post_of(&mut self, place: usize) -> Result<Option<Post>, AllocError> {
        let Some(line) = self.servers.get(place) else {
            return Ok(None);
        };
        let orders = line.orders.clone()?;
        let Some(replies) = self.replies.get_mut(place).and_then(|it| it.take()) else {
            return Ok(None);
        };
        Ok(Some(Post { orders, replies }))
    }

    /// Lets all threads but the leading one return.
    pub(crate) fn leave<R: Wait>(&self, rt: &R) {
        leave_all(rt, &self.clients);
        leave_all(rt, &self.senders);
        leave_all(rt, &self.rooms);
        leave_all(rt, &self.servers);
    }
}

fn leave_all<R: Wait>(rt: &R, lines: &[Line]) {
    for line in lines {
        line.ask(rt, Order::Leave);
    }
}
