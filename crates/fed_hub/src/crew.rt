// A thread for each token.
use crate::client_token::ClientToken;
use crate::hub::Hub;
use crate::tokens::{Seat, SenderToken, Tokens};
use fed_event::Keys;
use fed_hub_rooms::RoomToken;
use fed_hub_serving::{ServeToken, ServingNaming};
use fed_hub_state::Naming;
use std::thread::{Threads, for_each_mut, join};

// Each token has a thread of its own, however many there are.
const MOST_THREADS: usize = usize::MAX;

/// What the threads of a hub do, each with its token. A kind of thread that a server does without returns at once.
pub trait Crew<K: Keys + Drop> {
    /// What the thread does that has the seats of those who read the board.
    fn lead<N: Naming + ServingNaming>(&self, hub: &Hub<N, K>, readers: &mut [Seat<N>]);

    /// What the thread of the client at this place does.
    fn client<N: Naming + ServingNaming>(
        &self,
        hub: &Hub<N, K>,
        place: usize,
        token: &mut ClientToken<N>,
    );

    /// What the thread does that sends to one destination.
    fn sender<N: Naming + ServingNaming>(&self, hub: &Hub<N, K>, token: &mut SenderToken<N>);

    /// What the thread of one room does.
    fn room<N: Naming + ServingNaming>(&self, hub: &Hub<N, K>, token: &mut RoomToken<N>);

    /// What the thread at this place does that serves.
    fn server<N: Naming + ServingNaming>(
        &self,
        hub: &Hub<N, K>,
        place: usize,
        token: &mut ServeToken<N>,
    );
}

/// Runs a thread for each token but the seats, for which there is one, and returns once all of them have returned. Where the system makes no more
/// threads, some run one after another.
pub(crate) fn each_in_a_thread<N, K, C, R>(
    rt: &R,
    hub: &Hub<N, K>,
    tokens: &mut Tokens<N>,
    crew: &C,
)
where
    N: Naming + ServingNaming + Send + Sync,
    K: Keys + Drop + Sync,
    C: Crew<K> + Sync,
    R: Threads + Sync,
{
    let readers = tokens.readers.as_mut_slice();
    let clients = tokens.clients.as_mut_slice();
    let senders = tokens.senders.as_mut_slice();
    let rooms = tokens.rooms.as_mut_slice();
    let servers = tokens.servers.as_mut_slice();
    join(
        rt,
        || crew.lead(hub, readers),
        || all_others(rt, hub, crew, clients, senders, rooms, servers),
    );
}

// All but the leading one.
fn all_others<N, K, C, R>(
    rt: &R,
    hub: &Hub<N, K>,
    crew: &C,
    clients: &mut [ClientToken<N>],
    senders: &mut [SenderToken<N>],
    rooms: &mut [RoomToken<N>],
    servers: &mut [ServeToken<N>],
)
where
    N: Naming + ServingNaming + Send + Sync,
    K: Keys + Drop + Sync,
    C: Crew<K> + Sync,
    R: Threads + Sync,
{
    join(
        rt,
        || all_who_send(rt, hub, crew, clients, senders),
        || all_who_receive(rt, hub, crew, rooms, servers),
    );
}

fn all_who_send<N, K, C, R>(
    rt: &R,
    hub: &Hub<N, K>,
    crew: &C,
    clients: &mut [ClientToken<N>],
    senders: &mut [SenderToken<N>],
)
where
    N: Naming + ServingNaming + Send + Sync,
    K: Keys + Drop + Sync,
    C: Crew<K> + Sync,
    R: Threads + Sync,
{
    join(
        rt,
        || all_clients(rt, hub, crew, clients),
        || all_senders(rt, hub, crew, senders),
    );
}

fn all_who_receive<N, K, C, R>(
    rt: &R,
    hub: &Hub<N, K>,
    crew: &C,
    rooms: &mut [RoomToken<N>],
    servers: &mut [ServeToken<N>],
)
where
    N: Naming + ServingNaming + Send + Sync,
    K: Keys + Drop + Sync,
    C: Crew<K> + Sync,
    R: Threads + Sync,
{
    join(
        rt,
        || all_rooms(rt, hub, crew, rooms),
        || all_servers(rt, hub, crew, servers),
    );
}

fn all_clients<N, K, C, R>(rt: &R, hub: &Hub<N, K>, crew: &C, tokens: &mut [ClientToken<N>])
where
    N: Naming + ServingNaming + Send + Sync,
    K: Keys + Drop + Sync,
    C: Crew<K> + Sync,
    R: Threads + Sync,
{
    for_each_mut(
        rt,
        tokens,
        MOST_THREADS,
        &|place, token| crew.client(hub, place, token),
    );
}

fn all_senders<N, K, C, R>(rt: &R, hub: &Hub<N, K>, crew: &C, tokens: &mut [SenderToken<N>])
where
    N: Naming + ServingNaming + Send + Sync,
    K: Keys + Drop + Sync,
    C: Crew<K> + Sync,
    R: Threads + Sync,
{
    for_each_mut(
        rt,
        tokens,
        MOST_THREADS,
        &|_place, token| crew.sender(hub, token),
    );
}

fn all_rooms<N, K, C, R>(rt: &R, hub: &Hub<N, K>, crew: &C, tokens: &mut [RoomToken<N>])
where
    N: Naming + ServingNaming + Send + Sync,
    K: Keys + Drop + Sync,
    C: Crew<K> + Sync,
    R: Threads + Sync,
{
    for_each_mut(
        rt,
        tokens,
        MOST_THREADS,
        &|_place, token| crew.room(hub, token),
    );
}

fn all_servers<N, K, C, R>(rt: &R, hub: &Hub<N, K>, crew: &C, tokens: &mut [ServeToken<N>])
where
    N: Naming + ServingNaming + Send + Sync,
    K: Keys + Drop + Sync,
    C: Crew<K> + Sync,
    R: Threads + Sync,
{
    for_each_mut(
        rt,
        tokens,
        MOST_THREADS,
        &|place, token| crew.server(hub, place, token),
    );
}
