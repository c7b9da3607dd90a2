// How a hub is made.
ghost use Rattle.std.specs.Prelude.{◌≡◌, ◌≤◌, ℕ, List, true, length, IfOk, IsErr, IsErrOf, Err};
ghost use Rattle.fed_dest.specs.List.{has_doubled};
ghost use Rattle.fed_wires.specs.Seat.{AreOwners, AreReaders};
ghost use Rattle.fed_hub.specs.declared.faults.HubFault.TheVariants.{BadSetup};
ghost use Rattle.fed_hub.specs.Named.{AreNamesOf};
ghost use Rattle.fed_hub.specs.Setup.{has_own_fault, ids_of, has_room, is_bad_setup};
ghost use Rattle.fed_hub.specs.ClientToken.{AreNew};
ghost use Rattle.fed_hub.specs.Hub.{IsHubOf};
ghost use Rattle.fed_hub.specs.Tokens.{AreTokensOf, rooms_new, senders_new, servers_new};
ghost use Rattle.fed_hub.specs.Wires.{new_receivers};

use crate::client_token::ClientToken;
use crate::faults::HubFault;
use crate::hub::Hub;
use crate::opened::{Lent, Opened};
use crate::reception::Reception;
use crate::rooms::Rooms;
use crate::setup::Setup;
use crate::tokens::{Seat, SenderToken, Tokens};
use fed_dest::{MAX_SERVERS, ServerIndex};
use fed_event::{Checked, Keys};
use fed_hub_rooms::RoomToken;
use fed_hub_serving::{ServeToken, ServingNaming};
use fed_hub_state::{InPlace, KeptRoom, Naming, SeatedOutbox, SendingJournal};
use fed_journal::Parcel;
use fed_json::NoMemory;
use fed_wires::{AnyMessage, Credits, ReceiveEnd};
use std::alloc::Global;
use std::sync::Mutex;

impl<N: Naming + ServingNaming, K: Keys + Drop> Hub<N, K> {
    /// A hub that has answered no request, with what its threads hold: a token for each client that was told of nothing, a seat for each reader
    /// that has seen nothing, a token for each other server and for each room, over whose wire nothing came, and for each listed server a token
    /// of a thread that serves. The types know what they share by the names of `opened`, and by what the setup has.
    ///
    /// # Errors
    ///
    /// `BadSetup`, exactly where the own server is not listed, is the only one listed or is not the one that the keys sign as, which is told
    /// without memory, or where two rooms have one id; and `Memory`.
    pub fn new(
        alloc: Global,
        setup: Setup<K>,
        opened: Opened,
    ) -> Result<(Hub<N, K>, Tokens<N>), HubFault>
        requires { AreNamesOf setup.own setup.list (ids_of setup.rooms.items) (K.checks setup.keys) opened N.wires N.own N.board N.events N.edus N.parts N.known N.rooms N.checks N.receiver N.beginning }
        ensures own { has_own_fault setup.list setup.own (K.own_name setup.keys) ≡ true → result ≡ Err BadSetup }
        ensures doubled { has_doubled (ids_of setup.rooms.items) ≡ true → IsErr result }
        ensures bad_only { IsErrOf result BadSetup → is_bad_setup setup.list setup.own (K.own_name setup.keys) setup.rooms.items ≡ true }
        ensures hub { IfOk result (λ r. IsHubOf setup.list N.own setup.own setup.epoch (ids_of setup.rooms.items) N.parts opened.readers r.0) }
        ensures tokens { IfOk result (λ r. AreTokensOf N.parts N.board opened.readers (length N.wires) N.own (length N.rooms) (length setup.list) r.1.clients.items r.1.readers.items r.1.senders.items r.1.rooms.items r.1.servers.items) }
    {
        if setup.has_own_fault() {
            return Err(HubFault::BadSetup);
        }
        let Some(own) = setup.list.find(setup.own.as_str()) else {
            return Err(HubFault::BadSetup);
        };
        let (clients, readers) = (opened.clients(), opened.readers());
        let Opened {
            ends,
            room_ends,
            board,
            owners,
            events,
            edus,
            lent,
        } = opened;
        let reception = Reception::new(alloc, &setup.own, &setup.list, &setup.rooms, room_ends)?;
        let Setup {
            own: _,
            list,
            rooms,
            keys,
            epoch,
        } = setup;
        let rooms = rooms_of(alloc, rooms)?;
        let credits = Credits::new(alloc, &ends)?;
        let (journal, share) = SendingJournal::<N>::new(alloc, ends, events, edus)?;
        let tokens = tokens_of(alloc, own, share, lent, list.len())?;
        let hub = Hub {
            list,
            own,
            keys,
            epoch,
            rooms,
            journal: Mutex::new(journal),
            credits,
            outboxes: outboxes_of(alloc, owners)?,
            reception,
            board,
            clients,
            readers,
        };
        Ok((hub, tokens))
    }
}

// Rooms by their ids and places.
fn rooms_of(alloc: Global, rooms: Vec<KeptRoom>) -> Result<Rooms, HubFault>
    ensures rooms { IfOk result (λ r. (id : List ℕ) → has_room r.ids id ≡ has_room (ids_of rooms.items) id) }
    ensures count { IfOk result (λ r. r.count ≡ length rooms.items) }
    ensures doubled { has_doubled (ids_of rooms.items) ≡ true → IsErr result }
    ensures bad_only { IsErrOf result BadSetup → has_doubled (ids_of rooms.items) ≡ true }
{
    let mut all = Rooms::new(alloc);
    for room in rooms {
        all.add(alloc, room)?;
    }
    Ok(all)
}

// A token for each thread, of which so many serve.
fn tokens_of<N: Naming + ServingNaming>(
    alloc: Global,
    own: ServerIndex,
    share: fed_hub_state::ClientToken<N>,
    lent: Lent,
    serving: usize,
) -> Result<Tokens<N>, NoMemory>
    requires share { share ≡ record { parts = lent.clients; events = 0; edus = 0 } }
    requires readers { AreReaders N.board (length lent.readers.items) lent.readers.items }
    requires ends { (lent.ends.items ≡ new_receivers N.wires) × (length N.wires ≤ MAX_SERVERS) }
    requires room_ends { lent.room_ends.items ≡ new_receivers N.rooms }
    ensures { IfOk result (λ t. AreTokensOf lent.clients N.board (length lent.readers.items) (length N.wires) own (length N.rooms) serving t.clients.items t.readers.items t.senders.items t.rooms.items t.servers.items) }
{
    Ok(Tokens {
        clients: clients_of(alloc, share, lent.clients)?,
        readers: seats_of(alloc, lent.readers)?,
        senders: senders_of(alloc, own, lent.ends)?,
        rooms: room_tokens_of(alloc, lent.room_ends)?,
        servers: serve_tokens_of(alloc, serving)?,
    })
}

// A token for each part of a share that has them all.
fn clients_of<N: Naming>(
    alloc: Global,
    share: fed_hub_state::ClientToken<N>,
    parts: u64,
) -> Result<Vec<ClientToken<N>>, NoMemory>
    requires { share ≡ record { parts = parts; events = 0; edus = 0 } }
    ensures { IfOk result (λ clients. AreNew parts clients.items) }
{
    let mut clients = Vec::new(alloc);
    if parts == 0 {
        return Ok(clients);
    }
    let mut rest = share;
    for _ in 1..parts {
        clients.push(ClientToken::new(alloc, rest.split()))?;
    }
    clients.push(ClientToken::new(alloc, rest))?;
    Ok(clients)
}

// A seat for each that owns no word.
fn seats_of<N: Naming>(
    alloc: Global,
    readers: Vec<fed_wires::Seat>,
) -> Result<Vec<Seat<N>>, NoMemory>
    requires { AreReaders N.board (length readers.items) readers.items }
    ensures { IfOk result (λ seats. seats.items ≡ readers.items) }
{
    let mut seats = Vec::with_capacity(alloc, readers.len())?;
    for reader in readers {
        seats.push(Seat::new(reader))?;
    }
    Ok(seats)
}

// A token for each server but the own one, with the end of its wire that receives.
fn senders_of<N: Naming>(
    alloc: Global,
    own: ServerIndex,
    others: Vec<ReceiveEnd<Parcel, InPlace>>,
) -> Result<Vec<SenderToken<N>>, NoMemory>
    requires ends { others.items ≡ new_receivers N.wires }
    requires few { length N.wires ≤ MAX_SERVERS }
    ensures { IfOk result (λ senders. senders.items ≡ senders_new (length N.wires) own) }
{
    let mut senders = Vec::with_capacity(alloc, others.len())?;
    let mut place = 0;
    for end in others {
        let dest = ServerIndex::new(place);
        if dest == own {
            drop(end);
        } else {
            senders.push(SenderToken::new(dest, end))?;
        }
        place += 1;
    }
    Ok(senders)
}

// A token for each room, with the end of its wire that receives.
fn room_tokens_of<N: ServingNaming>(
    alloc: Global,
    others: Vec<ReceiveEnd<Checked, AnyMessage>>,
) -> Result<Vec<RoomToken<N>>, NoMemory>
    requires { others.items ≡ new_receivers N.rooms }
    ensures { IfOk result (λ tokens. tokens.items ≡ rooms_new (length N.rooms)) }
{
    let mut tokens = Vec::with_capacity(alloc, others.len())?;
    for end in others {
        let place = tokens.len();
        tokens.push(RoomToken::new(alloc, place, end))?;
    }
    Ok(tokens)
}

// So many tokens of threads that serve.
fn serve_tokens_of<N: ServingNaming>(
    alloc: Global,
    count: usize,
) -> Result<Vec<ServeToken<N>>, NoMemory>
    ensures { IfOk result (λ tokens. tokens.items ≡ servers_new count) }
{
    let mut tokens = Vec::with_capacity(alloc, count)?;
    for _ in 0..count {
        tokens.push(ServeToken::new(alloc))?;
    }
    Ok(tokens)
}

// An outbox for each server, with the seat that owns its word.
fn outboxes_of<N: Naming>(
    alloc: Global,
    owners: Vec<fed_wires::Seat>,
) -> Result<Vec<Mutex<SeatedOutbox<N>>>, NoMemory>
    requires owners { AreOwners N.board owners.items }
    requires few { length owners.items ≤ MAX_SERVERS }
    ensures { IfOk result (λ outboxes. length outboxes.items ≡ length owners.items) }
{
    let mut outboxes = Vec::with_capacity(alloc, owners.len())?;
    let mut place = 0;
    for seat in owners {
        let outbox = SeatedOutbox::new(alloc, ServerIndex::new(place), seat);
        outboxes.push(Mutex::new(outbox))?;
        place += 1;
    }
    Ok(outboxes)
}
