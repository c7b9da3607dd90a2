// The steps of a world.
ghost use Rattle.std.specs.Prelude.{◌≡◌, ◌≤◌, OnErr, IfOk, ◌&&◌, length, nat_lt, nat_le};
ghost use Rattle.fed_inbox.specs.Taken.{taken_left};
ghost use Rattle.fed_sim.specs.Applying.{IsAppliedAt, IsAppliedInPart, IsGivenTo, IsGivenInPart};
ghost use Rattle.fed_sim.specs.Offering.{IsOffered, IsEduOffered, IsClosedFor};
ghost use Rattle.fed_sim.specs.Packets.{IsPosted, IsTaken, IsSettled};
ghost use Rattle.fed_sim.specs.Showing.{IsShown, count_of};
ghost use Rattle.fed_sim.specs.Rounds.{waited_until};
ghost use Rattle.fed_sim.specs.Steps.{Does, Leaves, Makes};
ghost use Rattle.fed_sim.specs.Ways.{IsOnWay, collecting, cutting, failing};
ghost use Rattle.fed_sim.specs.World.{AtServer, AtServerInPart, dated, ticked};

use crate::outcome::Outcome;
use crate::packet::Packet;
use crate::rounds::calm;
use crate::step::Step;
use crate::world::{MAX_MOMENT, World};
use fed_dest::{ServerIndex, ServerSet};
use fed_exchange::{read_request, read_status, request_bytes};
use fed_inbox::Taken;
use fed_json::{Json, NoMemory};
use fed_room_contract::Draft;
use std::alloc::Global;

impl World {
    ghost use Rattle.fed_sim.specs.WorldParts.{world_of, replies_of};

    /// Makes a step, and says where memory ran out in it.
    pub(crate) fn step(&mut self, alloc: Global, step: &Step) -> Outcome
        ensures { Makes step.now (world_of self.old) result (world_of self.new) }
    {
        match self.make(alloc, step) {
            Ok(outcome) => outcome,
            Err(NoMemory) => Outcome::NoMemory,
        }
    }

    // Makes a step.
    fn make(&mut self, alloc: Global, step: &Step) -> Result<Outcome, NoMemory>
        ensures made { IfOk result (λ told. Does step.now (world_of self.old) told (world_of self.new)) }
        ensures err { OnErr result (Leaves step.now (world_of self.old) (world_of self.new)) }
    {
        match step {
            Step::Offer { server, draft } => self.offer(alloc, *server, draft),
            Step::OfferEdu { server, edu, dests } => self.offer_edu(alloc, *server, edu, dests),
            Step::Close { server, dest } => self.close(*server, *dest),
            Step::Collect { server, dest } => self.collect(*server, *dest),
            Step::Cut { server, dest } => Ok(self.cut(*server, *dest)),
            Step::Failed { server, dest } => Ok(self.failed(*server, *dest)),
            Step::Post { server, dest } => self.post(alloc, *server, *dest),
            Step::Take { packet } => self.take(alloc, *packet),
            Step::Settle { packet } => self.settle(alloc, *packet),
            Step::Apply { server, room } => self.apply(alloc, *server, room),
            Step::Tick { ms } => Ok(self.tick(*ms)),
            Step::Show { server, origin } => Ok(self.shown(*server, *origin)),
            Step::Calm { rounds } => {
                calm(alloc, self, *rounds)?;
                Ok(Outcome::Calm { at_ms: self.now })
            }
        }
    }

    // A user of a server sends an event, which is dated with the present moment.
    fn offer(
        &mut self,
        alloc: Global,
        server: ServerIndex,
        draft: &Draft,
    ) -> Result<Outcome, NoMemory>
        ensures offered { let old = world_of self.old in IfOk result (λ told. AtServer server (IsOffered old.names old.known (dated draft.now old.now)) old told (world_of self.new)) }
        ensures err { OnErr result (world_of self.new ≡ world_of self.old) }
    {
        let Some(sender) = self.servers.get_mut(server.place()) else {
            return Ok(Outcome::NoSuchServer);
        };
        let draft = dated(alloc, draft, self.now)?;
        sender.offer(alloc, &self.list, &self.known, draft)
    }

    // A server sends an ephemeral data unit.
    fn offer_edu(
        &mut self,
        alloc: Global,
        server: ServerIndex,
        edu: &Json,
        dests: &ServerSet,
    ) -> Result<Outcome, NoMemory>
        ensures offered { IfOk result (λ told. AtServer server (IsEduOffered edu.now dests.now) (world_of self.old) told (world_of self.new)) }
        ensures err { OnErr result (world_of self.new ≡ world_of self.old) }
    {
        let Some(sender) = self.servers.get_mut(server.place()) else {
            return Ok(Outcome::NoSuchServer);
        };
        sender.offer_edu(alloc, edu, dests)
    }

    // A server closes its outbox for a destination.
    fn close(&mut self, server: ServerIndex, dest: ServerIndex) -> Result<Outcome, NoMemory>
        ensures closed { IfOk result (λ told. AtServer server (IsClosedFor dest) (world_of self.old) told (world_of self.new)) }
        ensures err { OnErr result (world_of self.new ≡ world_of self.old) }
    {
        let Some(sender) = self.servers.get_mut(server.place()) else {
            return Ok(Outcome::NoSuchServer);
        };
        sender.close(dest)
    }

    /// The first parcel of a server for a destination goes into its outbox.
    pub(crate) fn collect(
        &mut self,
        server: ServerIndex,
        dest: ServerIndex,
    ) -> Result<Outcome, NoMemory>
        ensures collected { IfOk result (λ told. AtServer server (IsOnWay dest collecting) (world_of self.old) told (world_of self.new)) }
        ensures replies { replies_of self.new ≡ replies_of self.old }
        ensures err { OnErr result (world_of self.new ≡ world_of self.old) }
    {
        let Some(sender) = self.servers.get_mut(server.place()) else {
            return Ok(Outcome::NoSuchServer);
        };
        sender.collect(dest)
    }

    /// A server makes the next transaction for a destination.
    pub(crate) fn cut(&mut self, server: ServerIndex, dest: ServerIndex) -> Outcome
        ensures cut { AtServer server (IsOnWay dest (cutting self.old.now)) (world_of self.old) result (world_of self.new) }
        ensures replies { replies_of self.new ≡ replies_of self.old }
    {
        let Some(sender) = self.servers.get_mut(server.place()) else {
            return Outcome::NoSuchServer;
        };
        sender.cut(dest, self.now)
    }

    // The sending of the unanswered transaction has failed.
    fn failed(&mut self, server: ServerIndex, dest: ServerIndex) -> Outcome
        ensures { AtServer server (IsOnWay dest (failing self.old.now)) (world_of self.old) result (world_of self.new) }
    {
        let Some(sender) = self.servers.get_mut(server.place()) else {
            return Outcome::NoSuchServer;
        };
        sender.failed(dest, self.now)
    }

    /// The request of the unanswered transaction becomes a packet, where it is due.
    pub(crate) fn post(
        &mut self,
        alloc: Global,
        server: ServerIndex,
        dest: ServerIndex,
    ) -> Result<Outcome, NoMemory>
        ensures posted { IfOk result (λ told. IsPosted server dest (world_of self.old) told (world_of self.new)) }
        ensures replies { replies_of self.new ≡ replies_of self.old }
        ensures err { OnErr result (world_of self.new ≡ world_of self.old) }
    {
        let Some(sender) = self.server(server) else {
            return Ok(Outcome::NoSuchServer);
        };
        let Some(way) = sender.way(dest) else {
            return Ok(Outcome::NoSuchServer);
        };
        let outbox = way.outbox();
        let Some(transaction) = outbox.unanswered() else {
            return Ok(Outcome::NothingToPost);
        };
        if !outbox.due(self.now) {
            let at_ms = outbox.due_at();
            return Ok(Outcome::NotDue { at_ms });
        }
        let name = self.list.name(dest);
        let number = transaction.number;
        let bytes = request_bytes(alloc, &transaction, self.epoch, &sender.keys, name)?;
        self.packets.push(Packet::Request {
            server,
            dest,
            number,
            bytes,
        })?;
        let packet = self.packets.len() as u64;
        Ok(Outcome::Posted { packet })
    }

    // Whether there is a packet of this number.
    fn has_packet(&self, packet: u64) -> bool
        ensures { result ≡ nat_lt 0 packet && nat_le packet (length self.entry.now.packets.items) }
    {
        0 < packet && packet <= self.packets.len() as u64
    }

    /// The request of a packet reaches its server, whose answer becomes a packet.
    pub(crate) fn take(&mut self, alloc: Global, packet: u64) -> Result<Outcome, NoMemory>
        ensures taken { IfOk result (λ told. IsTaken packet (world_of self.old) told (world_of self.new)) }
        ensures replies { replies_of self.new ≡ replies_of self.old }
        ensures err { OnErr result (world_of self.new ≡ world_of self.old) }
    {
        if !self.has_packet(packet) {
            return Ok(Outcome::NoSuchRequest);
        }
        let Packet::Request {
            server,
            dest,
            number,
            bytes,
        } = &self.packets[packet as usize - 1]
        else {
            return Ok(Outcome::NoSuchRequest);
        };
        let (server, dest, number) = (*server, *dest, *number);
        let Some(request) = read_request(alloc, bytes)? else {
            return Ok(Outcome::NoSuchRequest);
        };
        self.packets.reserve(1)?;
        let Some(receiver) = self.servers.get_mut(dest.place()) else {
            return Ok(Outcome::NoSuchRequest);
        };
        let reply = receiver.take(alloc, &self.known, &request)?;
        let status = reply.status();
        // There is room for it.
        self.packets
            .push(Packet::Answer {
                server,
                dest,
                number,
                reply,
            })
            .unwrap();
        let packet = self.packets.len() as u64;
        Ok(Outcome::Answered { packet, status })
    }

    /// The answer of a packet reaches the server that sent the request.
    pub(crate) fn settle(&mut self, alloc: Global, packet: u64) -> Result<Outcome, NoMemory>
        ensures settled { IfOk result (λ told. IsSettled packet (world_of self.old) told (world_of self.new)) }
        ensures replies { replies_of self.new ≡ replies_of self.old }
        ensures err { OnErr result (world_of self.new ≡ world_of self.old) }
    {
        if !self.has_packet(packet) {
            return Ok(Outcome::NoSuchAnswer);
        }
        let Packet::Answer {
            server,
            dest,
            number,
            reply,
        } = &self.packets[packet as usize - 1]
        else {
            return Ok(Outcome::NoSuchAnswer);
        };
        let (server, dest, number) = (*server, *dest, *number);
        let status = read_status(alloc, reply)?;
        let Some(sender) = self.servers.get_mut(server.place()) else {
            return Ok(Outcome::NoSuchServer);
        };
        Ok(sender.settle(dest, number, status, self.now))
    }

    // The first event in front of a room is given to it.
    fn apply(&mut self, alloc: Global, server: ServerIndex, room: &str) -> Result<Outcome, NoMemory>
        ensures applied { let old = world_of self.old in IfOk result (λ told. AtServer server (IsGivenTo old.known room.now) old told (world_of self.new)) }
        ensures err { let old = world_of self.old in OnErr result (AtServerInPart server (IsGivenInPart old.known room.now) old (world_of self.new)) }
    {
        let Some(receiver) = self.servers.get_mut(server.place()) else {
            return Ok(Outcome::NoSuchServer);
        };
        receiver.apply(alloc, &self.known, room)
    }

    /// The first event in front of the room at this place is given to it.
    pub(crate) fn apply_at(
        &mut self,
        alloc: Global,
        server: ServerIndex,
        place: usize,
    ) -> Result<Outcome, NoMemory>
        ensures applied { IfOk result (λ told. AtServer server (IsAppliedAt place) (world_of self.old) told (world_of self.new)) }
        ensures replies { replies_of self.new ≡ replies_of self.old }
        ensures err { OnErr result (AtServerInPart server (IsAppliedInPart place) (world_of self.old) (world_of self.new)) }
    {
        let Some(receiver) = self.servers.get_mut(server.place()) else {
            return Ok(Outcome::NoSuchServer);
        };
        receiver.apply_at(alloc, place)
    }

    // The moment rises.
    fn tick(&mut self, ms: u64) -> Outcome
        ensures { (result, world_of self.new) ≡ ticked ms (world_of self.old) }
    {
        if MAX_MOMENT - self.now < ms {
            return Outcome::TooLate;
        }
        self.now += ms;
        Outcome::Now { at_ms: self.now }
    }

    /// The moment rises to this one, where that is later and no greater than the greatest; whether it has been reached.
    pub(crate) fn wait_until(&mut self, at_ms: u64) -> bool
        ensures waited { (result, world_of self.new) ≡ waited_until at_ms (world_of self.old) }
        ensures replies { replies_of self.new ≡ replies_of self.old }
    {
        if MAX_MOMENT < at_ms {
            return false;
        }
        if self.now < at_ms {
            self.now = at_ms;
        }
        true
    }

    // What a server took from an origin, and what the origin counts as delivered to it.
    fn shown(&self, server: ServerIndex, origin: ServerIndex) -> Outcome
        ensures { IsShown server origin (world_of self.entry.now) result }
    {
        let Some(inbox) = self.inbox(server) else {
            return Outcome::NoSuchServer;
        };
        let Some(outbox) = self.outbox(origin, server) else {
            return Outcome::NoSuchServer;
        };
        let name = self.list.name(origin);
        Outcome::Shown {
            taken: count_of(inbox.taken(name)),
            taken_edus: count_of(inbox.taken_edus(name)),
            acked: outbox.acked(),
            acked_edus: outbox.acked_edus(),
        }
    }
}

// How many texts they are.
fn count_of(texts: Taken<'_>) -> u64
    ensures { result ≡ count_of (taken_left texts.entry) }
{
    let mut count = 0u64;
    for _ in texts {
        count = count.saturating_add(1);
    }
    count
}

// The draft, dated with this moment.
fn dated(alloc: Global, draft: &Draft, at_ms: u64) -> Result<Draft, NoMemory>
    requires { at_ms ≤ 9007199254740991 }
    ensures { IfOk result (λ copy. copy ≡ dated draft.now at_ms) }
{
    let Draft {
        room,
        sender,
        kind,
        state_key,
        content,
        ..
    } = draft.copy(alloc)?;
    Ok(Draft {
        room,
        sender,
        kind,
        state_key,
        content,
        at_ms,
    })
}
