// What client threads ask of a hub.
ghost use Rattle.std.specs.Prelude.{◌≡◌, ◌≢◌, ◌<◌, false, length, All, IfOk};
ghost use Rattle.fed_dest.specs.ServerSet.{is_among};
ghost use Rattle.fed_room.specs.Room.{room_of};
ghost use Rattle.fed_room_contract.specs.Prepared.{signer_of};
ghost use Rattle.fed_hub_state.specs.CloseFault.{CloseFullIsOf};
ghost use Rattle.fed_hub_state.specs.EnterFault.{FullIsOf};
ghost use Rattle.fed_hub.specs.Faults.{UnsentIsOf, send_fault_of, told_of_closing, told_of_offering, told_of_sending, unsent_of};
ghost use Rattle.fed_hub.specs.Offering.{IsSent, IsSentIn, IsEduOffered};
ghost use Rattle.fed_hub.specs.Ready.{IsReady};
ghost use Rattle.fed_hub.specs.declared.faults.SendFault.TheVariants.{Memory};
ghost use Rattle.fed_hub.specs.declared.offering.Unsent.TheVariants.{Refused};

use crate::client_token::ClientToken;
use crate::faults::{EduFault, SendFault};
use crate::hub::Hub;
use crate::ready::{Ready, ReadyEdu};
use crate::was_shut::shut_down;
use fed_dest::{ServerIndex, ServerSet, destinations};
use fed_event::{EventId, Keys};
use fed_hub_serving::ServingNaming;
use fed_hub_state::{CloseFault as Unclosed, EnterFault, FullWire, KeptRoom, Naming, sections};
use fed_hub_told::{Told, ToldEdu, ToldEvent};
use fed_journal::{JournalFault as CloseFault, edu_fault};
use fed_json::{Json, NoMemory};
use fed_room_contract::{Draft, Prepared, Refusal, RoomEngine};
use std::alloc::Global;
use std::sync::Wait;

/// An event that was sent: its number among the events of the journal, from 1, and its id.
#[derive(Debug, Drop, PartialEq, Eq)]
pub struct Sent {
    pub number: u64,
    pub event_id: EventId,
}

// Why an event is not sent: it is refused, or the wire to a destination had no room, and it may be tried again with this draft.
#[derive(Drop)]
enum Unsent {
    Refused(SendFault),
    Full(FullWire, Draft),
}

impl From<NoMemory> for Unsent {
    ghost from_gives = { λ _ told. told ≡ Refused Memory };

    fn from(_error: NoMemory) -> Unsent {
        Unsent::Refused(SendFault::Memory)
    }
}

impl From<Refusal> for Unsent {
    ghost from_gives = { λ refusal told. told ≡ Refused (send_fault_of refusal) };

    fn from(refusal: Refusal) -> Unsent {
        Unsent::Refused(SendFault::from(refusal))
    }
}

impl Unsent {
    // Why an event is not entered that was made of a draft like this one.
    fn of_entering(fault: EnterFault, draft: Draft) -> Unsent
        ensures { result ≡ unsent_of fault draft }
    {
        match fault {
            EnterFault::Memory => Unsent::Refused(SendFault::Memory),
            EnterFault::ShutDown => Unsent::Refused(SendFault::ShutDown),
            EnterFault::Limit => Unsent::Refused(SendFault::Limit),
            EnterFault::Full(full) => Unsent::Full(full, draft),
        }
    }
}

impl<N: Naming + ServingNaming, K: Keys + Drop> Hub<N, K> {
    /// Makes an event of a draft, stores it in its room and sends it on its way to the other listed servers that are joined in the state
    /// before it, as far as their outboxes are open (Server-Server API, "PDUs"). An outbox whose parcel comes back is closed as lost. It
    /// waits while a wire is full.
    ///
    /// # Errors
    ///
    /// The first of these; all is then as it was.
    ///
    /// - `UnknownRoom`, exactly where the hub has no room of the draft's id
    /// - `NotOwnUser`, exactly where the sender is no user of the own server
    /// - `BadDraft`, where what the draft makes is no event
    /// - `NotAllowed`, where the room would not accept it
    /// - `ShutDown`, where the hub is shut down
    /// - `Limit`, where the journal has no place for it and for closing each outbox that it reaches
    ///
    /// And `Memory`, behind the first two.
    pub fn send<R: Wait>(
        &self,
        rt: &R,
        alloc: Global,
        client: &mut ClientToken<N>,
        draft: Draft,
    ) -> Result<Sent, SendFault>
        ensures { IsSent self.now draft client.old result client.new }
    {
        let Some(room) = self.rooms.get(&draft.room) else {
            return Err(SendFault::UnknownRoom);
        };
        let mut draft = draft;
        for _ in rt.forever() {
            let told = self.send_in(rt, alloc, &self.keys, &mut room.lock(rt), client, draft);
            match told {
                Ok(sent) => return Ok(sent),
                Err(unsent) => draft = self.wait_to_send(rt, unsent)?,
            }
        }
        unreachable!()
    }

    // Waits for room where a wire is full, and gives the draft back; or tells why it is refused.
    fn wait_to_send<R: Wait>(&self, rt: &R, unsent: Unsent) -> Result<Draft, SendFault>
        requires { UnsentIsOf N.wires unsent }
        ensures { result ≡ told_of_sending unsent }
    {
        match unsent {
            Unsent::Refused(fault) => Err(fault),
            Unsent::Full(full, draft) => {
                self.wait_for_room(rt, full);
                Ok(draft)
            }
        }
    }

    // Sends an event in a room whose lock is held.
    fn send_in<R: Wait>(
        &self,
        rt: &R,
        alloc: Global,
        keys: &K,
        room: &mut KeptRoom,
        client: &mut ClientToken<N>,
        draft: Draft,
    ) -> Result<Sent, Unsent>
        requires name { K.own_name keys.now ≡ self.now.name }
        ensures { IsSentIn (signer_of (K.own_name keys.now) (K.own_key keys.now) (K.own_signature keys.now) (K.checks keys.now)) N.wires draft room.old client.old result room.new client.new }
    {
        let copy = draft.copy(alloc);
        let prepared = room.prepare(alloc, draft, keys)?;
        let Ready {
            outgoing,
            draft,
            event_id,
            same_id,
        } = self.ready(alloc, room, &mut client.told, prepared, copy)?;
        let offered = sections::offer(
            rt,
            room,
            &mut self.journal.lock(rt),
            &mut client.share,
            outgoing,
        );
        match offered {
            Ok(number) => {
                client.told.note_event(ToldEvent {
                    draft,
                    number,
                    event_id: same_id,
                });
                Ok(Sent { number, event_id })
            }
            Err(fault) => Err(Unsent::of_entering(fault, draft)),
        }
    }

    // Makes ready what a room has prepared of a draft, with its destinations, and room for what the client will be told.
    fn ready(
        &self,
        alloc: Global,
        room: &KeptRoom,
        told: &mut Told,
        prepared: Prepared,
        draft: Result<Draft, NoMemory>,
    ) -> Result<Ready, NoMemory>
        ensures same { (told.new.events ≡ told.old.events) × (told.new.edus ≡ told.old.edus) }
        ensures ready { IfOk result (λ r. IsReady (room_of room.now.room).stored self.now.list self.now.own (length N.wires) prepared draft told.new r) }
    {
        told.reserve_event()?;
        let graph = room.room().graph();
        let before = prepared.state_before();
        let dests = destinations(alloc, graph, before, self.own, &self.list)?;
        Ready::new(alloc, prepared, dests, draft?)
    }

    /// Offers an ephemeral data unit to some of the other listed servers, and tells its number among the EDUs of the journal, from 1
    /// (Server-Server API, "EDUs"). It goes to those whose outboxes are open; an outbox whose parcel comes back is closed as lost. It waits
    /// while a wire is full.
    ///
    /// # Errors
    ///
    /// The first of these; all is then as it was.
    ///
    /// - `BadEdu`, `TooLarge`, `TooDeep`, where it has that fault
    /// - `ShutDown`, where the hub is shut down
    /// - `Limit`, where the journal has no place for it and for closing each outbox that it reaches
    ///
    /// And `Memory`, but for one that is none at all.
    pub fn offer_edu<R: Wait>(
        &self,
        rt: &R,
        alloc: Global,
        client: &mut ClientToken<N>,
        edu: Json,
        dests: ServerSet,
    ) -> Result<u64, EduFault>
        requires within { All (λ d. d < length N.wires) dests }
        requires others { is_among dests N.own ≡ false }
        ensures { IsEduOffered edu dests client.old result client.new }
    {
        if let Some(fault) = edu_fault(alloc, &edu)? {
            return Err(EduFault::from(fault));
        }
        client.told.reserve_edu()?;
        for _ in rt.forever() {
            let ReadyEdu {
                loads,
                same_edu,
                same_dests,
            } = ReadyEdu::new(alloc, &edu, &dests)?;
            let offered = sections::offer_edu(
                rt,
                &mut self.journal.lock(rt),
                &mut client.share,
                same_edu,
                same_dests,
                loads,
            );
            match offered {
                Ok(number) => {
                    client.told.note_edu(ToldEdu { edu, dests, number });
                    return Ok(number);
                }
                Err(fault) => self.wait_to_offer(rt, fault)?,
            }
        }
        unreachable!()
    }

    // Waits for room where a wire is full, or tells another fault.
    fn wait_to_offer<R: Wait>(&self, rt: &R, fault: EnterFault) -> Result<(), EduFault>
        requires { FullIsOf N.wires fault }
        ensures { result ≡ told_of_offering fault }
    {
        match fault {
            EnterFault::Full(full) => {
                self.wait_for_room(rt, full);
                Ok(())
            }
            EnterFault::Memory => Err(EduFault::Memory),
            EnterFault::ShutDown => Err(EduFault::ShutDown),
            EnterFault::Limit => Err(EduFault::Limit),
        }
    }

    /// Closes the outbox of another listed server, and says whether it was open. What was offered before is sent still; the end of it goes
    /// over the wire as the last parcel, or comes back, and the outbox is lost.
    ///
    /// # Errors
    ///
    /// `Limit`, where the journal has no place for the closing, and `Memory`, both only where the outbox is open; all is then as it was.
    pub fn close_outbox<R: Wait>(&self, rt: &R, dest: ServerIndex) -> Result<bool, CloseFault>
        requires within { dest < length N.wires }
        requires other { dest ≢ N.own }
    {
        for _ in rt.forever() {
            let closed = sections::close(rt, &mut self.journal.lock(rt), dest);
            match closed {
                Ok(was_open) => return Ok(was_open),
                Err(fault) => self.wait_to_close(rt, fault)?,
            }
        }
        unreachable!()
    }

    // Waits for room where a wire is full, or tells another fault.
    fn wait_to_close<R: Wait>(&self, rt: &R, fault: Unclosed) -> Result<(), CloseFault>
        requires { CloseFullIsOf N.wires fault }
        ensures { result ≡ told_of_closing fault }
    {
        match fault {
            Unclosed::Full(full) => {
                self.wait_for_room(rt, full);
                Ok(())
            }
            Unclosed::Memory => Err(CloseFault::Memory),
            Unclosed::Limit => Err(CloseFault::Limit),
        }
    }

    /// Closes the outboxes of all other servers that are open, and ends the wires of all rooms. What is sent or offered from then on is refused,
    /// and what is taken from other servers goes to no room.
    ///
    /// # Errors
    ///
    /// `Limit`, where the journal has no place for the closings, and `Memory`; all is then as it was.
    pub fn shut_down<R: Wait>(&self, rt: &R) -> Result<(), CloseFault> {
        for _ in rt.forever() {
            let shut = shut_down(rt, &mut self.journal.lock(rt), self.own);
            match shut {
                Ok(shut) => {
                    self.reception.end_rooms(rt, shut);
                    return Ok(());
                }
                Err(fault) => self.wait_to_close(rt, fault)?,
            }
        }
        unreachable!()
    }
}
