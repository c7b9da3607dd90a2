// What a server sends.
ghost use Rattle.std.specs.Prelude.{◌≡◌, ◌≢◌, ◌<◌, ℕ, Ok, Err, OnErr, IfOk, IfErr, IsErr, map, string_bytes, length};
ghost use Rattle.fed_room_contract.specs.declared.refusal.Refusal.TheVariants.{Memory};
ghost use Rattle.fed_room_contract.specs.Prepared.{prepared_of};
ghost use Rattle.fed_room.specs.Room.{room_of, room_rules, IsPrepared};
ghost use Rattle.fed_dest.specs.ServerSet.{is_among};
ghost use Rattle.fed_dest.specs.Joined.{is_destination};
ghost use Rattle.fed_sim.specs.declared.outcome.Outcome.TheVariants.{NotSent};
ghost use Rattle.fed_sim.specs.declared.outcome.SendRefusal.TheVariants.{NotMade};
ghost use Rattle.fed_sim.specs.Offering.{IsOffered, IsOfferedAt, IsEduOffered, IsClosedFor, signer_named, others_among};

use crate::entering::{Entered, enter};
use crate::hosted::Hosted;
use crate::outcome::{EduRefusal, Outcome, SendRefusal};
use crate::server::Server;
use crate::taking::place_of;
use fed_dest::{List, ServerIndex, ServerSet, destinations};
use fed_event::{Checked, StandIn};
use fed_journal::{Cause, JournalFault, Load, Offered, Parcel, edu_fault};
use fed_json::{Json, NoMemory};
use fed_room_contract::{Draft, Prepared, Refusal, RoomEngine};
use std::alloc::Global;

impl Server {
    ghost use Rattle.fed_sim.specs.ServerParts.{server_of};

    /// A user sends an event of a known room: it goes to the servers that are joined in the state before it, as far as their outboxes
    /// are open, into the journal and into the room. Nothing changes where it is refused or memory runs out.
    pub(crate) fn offer(
        &mut self,
        alloc: Global,
        list: &List,
        known: &[String],
        draft: Draft,
    ) -> Result<Outcome, NoMemory>
        requires ways { length self.old.ways.items ≡ length list.now }
        requires rooms { length self.old.rooms.items ≡ length known.now }
        ensures offered { IfOk result (λ outcome. IsOffered list.now (map string_bytes known.now) draft (server_of self.old) outcome (server_of self.new)) }
        ensures err { OnErr result (server_of self.new ≡ server_of self.old) }
    {
        match place_of(known, &draft.room) {
            Some(place) => self.offer_at(alloc, list, place, draft),
            None => Ok(Outcome::NotSent(SendRefusal::UnknownRoom)),
        }
    }

    // The same, in the room at this place.
    fn offer_at(
        &mut self,
        alloc: Global,
        list: &List,
        place: usize,
        draft: Draft,
    ) -> Result<Outcome, NoMemory>
        requires room { place < length self.old.rooms.items }
        requires ways { length self.old.ways.items ≡ length list.now }
        ensures offered { IfOk result (λ outcome. IsOfferedAt list.now place draft (server_of self.old) outcome (server_of self.new)) }
        ensures err { OnErr result (server_of self.new ≡ server_of self.old) }
    {
        let hosted = &mut self.rooms[place];
        let outgoing = match outgoing_of(alloc, hosted, &self.keys, self.own, list, draft) {
            Ok(outgoing) => outgoing,
            Err(refusal) => return not_made(refusal),
        };
        let Outgoing {
            prepared,
            event,
            dests,
        } = outgoing;
        let offered = Offered::Event(event);
        match enter(alloc, &mut self.journal, &mut self.ways, offered, dests)? {
            Some(Entered { number, dests }) => {
                hosted.commit(prepared);
                Ok(Outcome::Sent { number, dests })
            }
            None => Ok(Outcome::NotSent(SendRefusal::Limit)),
        }
    }

    /// Sends an ephemeral data unit to those of these servers that are listed and are not this one, as far as their outboxes are open.
    /// Nothing changes where it is refused or memory runs out.
    pub(crate) fn offer_edu(
        &mut self,
        alloc: Global,
        edu: &Json,
        dests: &ServerSet,
    ) -> Result<Outcome, NoMemory>
        ensures offered { IfOk result (λ outcome. IsEduOffered edu.now dests.now (server_of self.old) outcome (server_of self.new)) }
        ensures err { OnErr result (server_of self.new ≡ server_of self.old) }
    {
        if let Some(fault) = edu_fault(alloc, edu)? {
            return Ok(Outcome::EduNotSent(EduRefusal::NotEdu(fault)));
        }
        let dests = others_among(alloc, dests, self.own, self.ways.len())?;
        let offered = Offered::Edu(edu.copy()?);
        match enter(alloc, &mut self.journal, &mut self.ways, offered, dests)? {
            Some(Entered { dests, .. }) => Ok(Outcome::EduSent { dests }),
            None => Ok(Outcome::EduNotSent(EduRefusal::Limit)),
        }
    }

    /// Closes the outbox for a destination, and says whether it was open. Nothing changes where it was not or memory runs out.
    pub(crate) fn close(&mut self, dest: ServerIndex) -> Result<Outcome, NoMemory>
        ensures closed { IfOk result (λ outcome. IsClosedFor dest (server_of self.old) outcome (server_of self.new)) }
        ensures err { OnErr result (server_of self.new ≡ server_of self.old) }
    {
        if dest == self.own {
            return Ok(Outcome::NoSuchServer);
        }
        if self.ways.len() <= dest.place() {
            return Ok(Outcome::NoSuchServer);
        }
        let Some(place) = self.journal.place(dest) else {
            return Ok(Outcome::WasClosed);
        };
        match self.journal.reserve(1) {
            Ok(()) => {}
            Err(JournalFault::Memory) => return Err(NoMemory),
            Err(JournalFault::Limit) => return Ok(Outcome::NotClosed),
        }
        let way = &mut self.ways[dest.place()];
        way.make_room(1)?;
        let load = Load::End;
        way.push(Parcel { place, load });
        self.journal.close(dest, Cause::Asked);
        Ok(Outcome::Closed)
    }
}

// What a server is about to send: the event that a room has made, an equal one for the journal, and the servers that it goes to.
#[derive(Drop)]
struct Outgoing {
    prepared: Prepared,
    event: Checked,
    dests: ServerSet,
}

// What a server sends for a draft. Nothing is changed that can be seen.
fn outgoing_of(
    alloc: Global,
    hosted: &mut Hosted,
    keys: &StandIn,
    own: ServerIndex,
    list: &List,
    draft: Draft,
) -> Result<Outgoing, Refusal>
    ensures made { IfOk result (λ o. prepared_of room_rules (signer_named keys.now) (room_of hosted.old.room).stored draft ≡ Ok o.prepared) }
    ensures event { IfOk result (λ o. o.event ≡ o.prepared.event) }
    ensures dests { IfOk result (λ o. (d : ℕ) → is_among o.dests d ≡ is_destination (room_of hosted.old.room).stored o.prepared.before list.now own d) }
    ensures ready { IfOk result (λ o. IsPrepared hosted.new.room o.prepared) }
    ensures refused { IfErr result (λ r. r ≢ Memory → prepared_of room_rules (signer_named keys.now) (room_of hosted.old.room).stored draft ≡ Err r) }
    ensures room { room_of hosted.new.room ≡ room_of hosted.old.room }
    ensures queue { hosted.new.queue ≡ hosted.old.queue }
{
    let prepared = hosted.prepare(alloc, draft, keys)?;
    let event = prepared.event().copy(alloc)?;
    let graph = hosted.room().graph();
    let dests = destinations(alloc, graph, prepared.state_before(), own, list)?;
    Ok(Outgoing {
        prepared,
        event,
        dests,
    })
}

// What a draft of which no event is made comes to.
fn not_made(refusal: Refusal) -> Result<Outcome, NoMemory>
    ensures told { IfOk result (λ told. told ≡ NotSent (NotMade refusal)) }
    ensures others { IfOk result (λ _. refusal ≢ Memory) }
    ensures memory { IsErr result → refusal ≡ Memory }
{
    match refusal {
        Refusal::Memory => Err(NoMemory),
        Refusal::NotOwnUser | Refusal::BadDraft(_) | Refusal::NotAllowed(_) => {
            Ok(Outcome::NotSent(SendRefusal::NotMade(refusal)))
        }
    }
}

// Those of the servers that are among so many and are not this one.
fn others_among(
    alloc: Global,
    servers: &ServerSet,
    own: ServerIndex,
    count: usize,
) -> Result<ServerSet, NoMemory>
    ensures { IfOk result (λ others. others ≡ others_among own count servers.now) }
{
    let mut others = servers.copy(alloc)?.into_vec();
    others.retain(|server| *server != own && server.place() < count);
    Ok(ServerSet::of(others))
}
