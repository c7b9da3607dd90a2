// A room under its lock.
ghost use Rattle.std.specs.Prelude.{◌≡◌, ◌≢◌, ◌⊎◌, ◌<◌, ◌-◌, ◌++◌, ◌∷◌, [], true, false, None, Some, Err, IfOk, IfErr, IfSome, OnOk, ◌+◌, length, vec_len, vec_capacity};
ghost use Rattle.fed_hub_state.specs.Applying.{EventIsApplied, came, given, stored_after};
ghost use Rattle.fed_room.specs.Room.{room_of};

use fed_event::{Checked, Keys};
use fed_json::NoMemory;
use fed_room::{Room, StartFault};
use fed_room_contract::{Applied, Draft, Input, Prepared, Refusal, RoomEngine, Stopped, apply};
use std::alloc::Global;
use std::marker::Model;

/// A room, with the events that it began with and all that it was given since, in order. Whenever its lock is free it is the room after these
/// inputs, and it was given an event that it made of a draft only where it accepts it.
///
/// Contracts see it as these, and for how many more inputs there is room.
#[derive(Drop)]
pub struct KeptRoom {
    room: Room,
    start: Vec<Checked>,
    inputs: Vec<Input>,
}

impl Model for KeptRoom {
    ghost use Rattle.fed_hub_state.specs.KeptRoom.{KeptState, kept_code};

    ghost Value = { KeptState };

    ghost coded = { kept_code };

    ghost use Rattle.fed_hub_state.specs.KeptRoomParts.{kept_of, IsKept};

    ghost view = { kept_of };

    ghost invariant = { IsKept };
}

impl KeptRoom {
    ghost use Rattle.fed_room_contract.specs.declared.refusal.Refusal.TheVariants.{Memory, NotOwnUser};
    ghost use Rattle.fed_room_contract.specs.declared.input.Input.TheVariants.{Commit};
    ghost use Rattle.fed_room_contract.specs.declared.verdict.Verdict.TheVariants.{Accepted};
    ghost use Rattle.fed_room_contract.specs.Graph.{is_ready};
    ghost use Rattle.fed_room_contract.specs.Prepared.{signer_of, is_own_user, prepared_of};
    ghost use Rattle.fed_room_contract.specs.Room.{committed, empty_room};
    ghost use Rattle.fed_room_contract.specs.Runs.{room_after, AllMayBeGiven};
    ghost use Rattle.fed_room.specs.declared.start_fault.StartFault.TheVariants as start;
    ghost use Rattle.fed_room.specs.Room.{room_of, room_rules, IsPrepared};
    ghost use Rattle.fed_room.specs.Start.{after_all, start_fault_of};
    ghost use Rattle.fed_hub_state.specs.KeptRoom.{id_of};

    /// The room that begins with these events at the server of this name, as `Room::start`.
    ///
    /// # Errors
    ///
    /// Those of `Room::start`, and `Memory`.
    pub fn start(alloc: Global, own: &str, events: Vec<Checked>) -> Result<KeptRoom, StartFault>
        ensures room { IfOk result (λ kept. room_of kept.room ≡ after_all room_rules empty_room events.items) }
        ensures start { IfOk result (λ kept. (kept.start ≡ events.items) × (kept.inputs ≡ [])) }
        ensures passes { OnOk result (start_fault_of room_rules events.items ≡ None) }
        ensures fails { IfErr result (λ fault. fault ≢ start.Memory → start_fault_of room_rules events.items ≡ Some fault) }
    {
        let start = copies(alloc, &events)?;
        let room = Room::start(alloc, own, events)?;
        Ok(KeptRoom {
            room,
            start,
            inputs: Vec::new(alloc),
        })
    }

    /// The room's id.
    pub fn id(&self) -> &str
        ensures { result.now ≡ id_of self.now }
    {
        self.start[0].event().room_id()
    }

    /// The room.
    pub fn room(&self) -> &Room
        ensures { result.now ≡ self.now.room }
    {
        &self.room
    }

    /// The events that the room began with.
    pub fn start_events(&self) -> &[Checked]
        ensures { result.now ≡ self.now.start }
    {
        &self.start
    }

    /// All that the room was given since, in order: it is the room after these inputs.
    pub fn inputs(&self) -> &[Input]
        ensures inputs { result.now ≡ self.now.inputs }
        ensures after { room_of self.now.room ≡ room_after room_rules (after_all room_rules empty_room self.now.start) self.now.inputs }
        ensures may { AllMayBeGiven room_rules (after_all room_rules empty_room self.now.start) self.now.inputs }
    {
        &self.inputs
    }

    /// The event that the room makes of a draft, as `RoomEngine::prepare`, and room for keeping it as an input.
    ///
    /// # Errors
    ///
    /// Those of `RoomEngine::prepare`.
    pub fn prepare<K: Keys>(
        &mut self,
        alloc: Global,
        draft: Draft,
        keys: &K,
    ) -> Result<Prepared, Refusal>
        ensures told { let signer = signer_of (K.own_name keys.now) (K.own_key keys.now) (K.own_signature keys.now) (K.checks keys.now) in
            (result ≡ prepared_of room_rules signer (room_of self.old.room).stored draft) ⊎ (result ≡ Err Memory) }
        ensures foreign { is_own_user (K.own_name keys.now) draft.sender ≡ false → result ≡ Err NotOwnUser }
        ensures accepted { IfOk result (λ p. room_rules.decide (room_of self.old.room).stored p.event ≡ Accepted) }
        ensures before { IfOk result (λ p. p.before ≡ room_rules.before (room_of self.old.room).stored p.event.event) }
        ensures ready { IfOk result (λ p. is_ready (room_of self.old.room).stored p.event.event ≡ true) }
        ensures prepared { IfOk result (λ p. IsPrepared self.new.room p) }
        ensures free { OnOk result (0 < self.new.free) }
        ensures stays { (room_of self.new.room ≡ room_of self.old.room) × (self.new.start ≡ self.old.start) × (self.new.inputs ≡ self.old.inputs) }
    {
        let prepared = self.room.prepare(alloc, draft, keys)?;
        self.inputs.reserve(1)?;
        Ok(prepared)
    }

    /// Stores an event that the room has made and accepts, and keeps it among the inputs. It takes no memory.
    pub(crate) fn commit(&mut self, prepared: Prepared, input: Checked)
        requires prepared { IsPrepared self.old.room prepared }
        requires accepted { room_rules.decide (room_of self.old.room).stored prepared.event ≡ Accepted }
        requires input { input ≡ prepared.event }
        requires free { 0 < self.old.free }
        ensures room { room_of self.new.room ≡ committed (room_of self.old.room) prepared.event }
        ensures inputs { (self.new.start ≡ self.old.start) × (self.new.inputs ≡ self.old.inputs ++ Commit prepared.event ∷ []) }
    {
        self.room.commit(prepared);
        // There is room for it.
        self.inputs.push(Input::Commit(input)).unwrap();
    }
}

impl KeptRoom {
    /// Gives the room an event that came, stores all that is then ready, and keeps what it was given. `input` is an equal event. Room for
    /// all these inputs is made first.
    ///
    /// # Errors
    ///
    /// `Stopped` where memory runs out, with how far the room came.
    pub(crate) fn apply(
        &mut self,
        alloc: Global,
        event: Checked,
        input: Checked,
    ) -> Result<Applied, Stopped>
        requires { input ≡ event }
        ensures { EventIsApplied event self.old result self.new }
    {
        let Ok(()) = make_room(&mut self.inputs, &self.room) else {
            return Err(Stopped::NotReceived(event));
        };
        let applied = apply(alloc, &mut self.room, event);
        keep_given(&mut self.inputs, input, &applied);
        applied
    }
}

// Makes room for an event that comes to a room, and for all that may be stored after it.
fn make_room(inputs: &mut Vec<Input>, room: &Room) -> Result<(), NoMemory>
    ensures room { OnOk result (length (room_of room.now).waiting + 1 < vec_capacity inputs.new - vec_len inputs.new) }
    ensures items { inputs.new.items ≡ inputs.old.items }
{
    inputs.reserve(room.waiting().len() + 2)
}

// Keeps what a room was given when an event came to it, for which there is room.
fn keep_given(inputs: &mut Vec<Input>, event: Checked, applied: &Result<Applied, Stopped>)
    requires { IfSome (stored_after applied.now) (λ more. more < vec_capacity inputs.old - vec_len inputs.old) }
    ensures { inputs.new.items ≡ inputs.old.items ++ given event applied.now }
{
    match applied {
        Ok(applied) => keep(inputs, event, applied.more),
        Err(Stopped::Received(applied)) => keep(inputs, event, applied.more),
        Err(Stopped::NotReceived(_)) => drop(event),
    }
}

// Keeps an event that came and so many advances as inputs, for which there is room.
fn keep(inputs: &mut Vec<Input>, event: Checked, advances: usize)
    requires { advances < vec_capacity inputs.old - vec_len inputs.old }
    ensures { inputs.new.items ≡ inputs.old.items ++ came event advances }
{
    inputs.push(Input::Receive(event)).unwrap();
    for _ in 0..advances {
        inputs.push(Input::Advance).unwrap();
    }
}

// Equal events.
fn copies(alloc: Global, events: &[Checked]) -> Result<Vec<Checked>, NoMemory>
    ensures { IfOk result (λ copies. copies.items ≡ events.now) }
{
    let mut copies = Vec::with_capacity(alloc, events.len())?;
    for event in events {
        copies.push(event.copy(alloc)?)?;
    }
    Ok(copies)
}
