// A room at a server, and the events in front of it.
ghost use Rattle.std.specs.Prelude.{◌≡◌, ◌⊎◌, ◌≤◌, ◌<◌, ◌+◌, ◌∷◌, ◌++◌, [], Ok, Err, None, OnOk, OnErr, IfOk, IfSome, IfNone, length};

use fed_event::{Checked, Keys};
use fed_json::NoMemory;
use fed_room::Room;
use fed_room_contract::{Applied, Draft, Prepared, Refusal, RoomEngine, Stopped, apply};
use std::alloc::Global;
use std::collections::VecDeque;
use std::marker::Model;

/// A room at a server, and the events that were taken for it and that it was not given yet.
///
/// Contracts see it as these, and for how many more events there is room.
#[derive(Drop)]
pub struct Hosted {
    room: Room,
    queue: VecDeque<Checked>,
}

impl Model for Hosted {
    ghost use Rattle.fed_sim.specs.Hosted.{HostedState, hosted_code};

    ghost Value = { HostedState };

    ghost coded = { hosted_code };

    ghost use Rattle.fed_sim.specs.HostedParts.{hosted_of};

    ghost view = { hosted_of };
}

impl Hosted {
    ghost use Rattle.fed_room.specs.Room.{room_of, room_rules, IsPrepared};
    ghost use Rattle.fed_room_contract.specs.Applying.{IsApplied, IsStopped};
    ghost use Rattle.fed_room_contract.specs.Prepared.{signer_of, prepared_of};
    ghost use Rattle.fed_room_contract.specs.declared.refusal.Refusal.TheVariants.{Memory};
    ghost use Rattle.fed_room_contract.specs.Room.{committed};
    ghost use Rattle.fed_sim.specs.Hosted.{IsSame, IsGiven};

    /// A room for which nothing was taken.
    pub(crate) fn new(alloc: Global, room: Room) -> Hosted
        ensures room { result.room ≡ room }
        ensures queue { result.queue ≡ [] }
    {
        Hosted {
            room,
            queue: VecDeque::new(alloc),
        }
    }

    /// The room.
    pub fn room(&self) -> &Room
        ensures { result.now ≡ self.now.room }
    {
        &self.room
    }

    /// How many events were taken for the room that it was not given yet.
    pub fn queued(&self) -> usize
        ensures { result ≡ length self.now.queue }
    {
        self.queue.len()
    }

    /// Makes room for so many more events.
    pub(crate) fn make_room(&mut self, more: usize) -> Result<(), NoMemory>
        ensures room { self.new.room ≡ self.old.room }
        ensures queue { self.new.queue ≡ self.old.queue }
        ensures free { OnOk result (more ≤ self.new.free) }
    {
        self.queue.reserve(more)
    }

    /// An event waits behind those that do.
    pub(crate) fn push(&mut self, event: Checked)
        requires { 0 < self.old.free }
        ensures room { self.new.room ≡ self.old.room }
        ensures queue { self.new.queue ≡ self.old.queue ++ event ∷ [] }
        ensures free { self.new.free + 1 ≡ self.old.free }
    {
        // There is room for it.
        self.queue.push_back(event).unwrap();
    }

    /// The event that the room makes of a draft.
    pub(crate) fn prepare<K: Keys>(
        &mut self,
        alloc: Global,
        draft: Draft,
        keys: &K,
    ) -> Result<Prepared, Refusal>
        ensures told { let signer = signer_of (K.own_name keys.now) (K.own_key keys.now) (K.own_signature keys.now) (K.checks keys.now) in
            (result ≡ prepared_of room_rules signer (room_of self.old.room).stored draft) ⊎ (result ≡ Err Memory) }
        ensures prepared { IfOk result (λ p. IsPrepared self.new.room p) }
        ensures stays { room_of self.new.room ≡ room_of self.old.room }
        ensures queue { self.new.queue ≡ self.old.queue }
    {
        self.room.prepare(alloc, draft, keys)
    }

    /// Stores an event that the room has prepared.
    pub(crate) fn commit(&mut self, prepared: Prepared)
        requires { IsPrepared self.old.room prepared }
        ensures room { room_of self.new.room ≡ committed (room_of self.old.room) prepared.event }
        ensures queue { self.new.queue ≡ self.old.queue }
    {
        self.room.commit(prepared);
    }

    /// Gives the room the first event, where there is one. An error leaves all as it was, but that the room may have received the event
    /// and stored some that waited.
    pub(crate) fn apply(&mut self, alloc: Global) -> Result<Option<Applied>, NoMemory>
        ensures nothing { self.old.queue ≡ [] → (result ≡ Ok None) × IsSame self.old self.new }
        ensures empty { IfOk result (λ told. IfNone told (self.old.queue ≡ [])) }
        ensures applied { IfOk result (λ told. IfSome told (λ a. IsGiven self.old self.new (λ event. IsApplied room_rules (room_of self.old.room) event a (room_of self.new.room)))) }
        ensures err { OnErr result (IsSame self.old self.new ⊎ IsGiven self.old self.new (λ event. IsStopped room_rules (room_of self.old.room) event (room_of self.new.room))) }
    {
        let Some(event) = self.queue.pop_front() else {
            return Ok(None);
        };
        match apply(alloc, &mut self.room, event) {
            Ok(applied) => Ok(Some(applied)),
            Err(Stopped::NotReceived(event)) => {
                // Its place is free.
                self.queue.push_front(event).unwrap();
                Err(NoMemory)
            }
            Err(Stopped::Received(_)) => Err(NoMemory),
        }
    }
}
