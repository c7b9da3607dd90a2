// What keeps a room.
ghost use Rattle.std.specs.Prelude.{◌≡◌, ◌⊎◌, ◌<◌, true, false, None, Err, IsOk, IfOk, IfErr, IfSome, OnOk, OnErr, option_map};
ghost use Rattle.fed_room_contract.specs.declared.refusal.Refusal.TheVariants.{Memory, NotOwnUser, BadDraft};
ghost use Rattle.fed_event.specs.declared.fault.PduFault.TheVariants.{TooDeep};
ghost use Rattle.serde_json.specs.Data.{depth};
ghost use Rattle.fed_room_contract.specs.declared.verdict.Verdict.TheVariants.{Accepted};
ghost use Rattle.fed_room_contract.specs.declared.receipt.Receipt.TheVariants as receipt;
ghost use Rattle.fed_room_contract.specs.Graph.{stored_at, is_ready};
ghost use Rattle.fed_room_contract.specs.Draft.{Bears};
ghost use Rattle.fed_room_contract.specs.Lawful.{NamesStored, AreLawful};
ghost use Rattle.fed_room_contract.specs.Room.{RoomState, Rules, event_id, receipt_of, after_receipt, first_ready, advanced, committed, extremities_of};
ghost use Rattle.fed_room_contract.specs.Prepared.{PreparedEvent, StaysPrepared, signer_of, is_own_user, prepared_of};

use crate::draft::Draft;
use crate::graph::Graph;
use crate::prepared::Prepared;
use crate::receipt::Receipt;
use crate::refusal::Refusal;
use crate::state::State;
use fed_event::{Checked, EventId, Keys, MAX_DEPTH};
use fed_json::NoMemory;
use std::alloc::Global;

/// What keeps a room: it stores events that are ready, each with a verdict, lets others wait for the events that they name, and makes
/// events of drafts (Server-Server API, "PDUs" and "Checks performed on receipt of a PDU").
///
/// An event is ready where all events that it names are stored. Of the events that are not ready `MOST_WAITING` may wait. How a room
/// decides on an event, and which state is before it, is its own: contracts see it as `rules`, functions of the events that are stored,
/// which are settled when the room is made. Memory runs out only where something grows.
pub trait RoomEngine {
    // the events that are stored, those that wait, and how many were dropped
    ghost room: { Self → RoomState };

    // what the room goes by, which no call changes
    ghost rules: { Self → Rules };

    // the room is as `prepare` left it when it made this event
    ghost is_prepared: { Self → PreparedEvent → Type 0 };

    /// Gives an event to the room. It is `Known` where an event of its id is stored or waits; else it is `Stored` where it is ready,
    /// `Waiting` where another one may wait, and `Dropped` where not: then only the count of those rises, which stays at its greatest
    /// value.
    ///
    /// # Errors
    ///
    /// The event and `NoMemory`, of an event that would be stored or would wait; then the room is as it was, and what was prepared stays so.
    fn receive(&mut self, alloc: Global, event: Checked) -> Result<Receipt, (Checked, NoMemory)>
        ensures receipt { IfOk result (λ r. r ≡ receipt_of (rules self.old) (room self.old) event) }
        ensures after { IfOk result (λ r. room self.new ≡ after_receipt (room self.old) event r) }
        ensures back { IfErr result (λ e. e.0 ≡ event) }
        ensures err { OnErr result (room self.new ≡ room self.old) }
        ensures kept { OnErr result (StaysPrepared is_prepared self.old self.new) }
        ensures known { receipt_of (rules self.old) (room self.old) event ≡ receipt.Known → IsOk result }
        ensures dropped { receipt_of (rules self.old) (room self.old) event ≡ receipt.Dropped → IsOk result }
        ensures rules { rules self.new ≡ rules self.old };

    /// Stores the waiting event that came first among those that are ready, and tells its id and what became of it; `None` where none
    /// is ready.
    ///
    /// # Errors
    ///
    /// `NoMemory`, where one is ready; then the room is as it was, and what was prepared stays so.
    fn advance(&mut self, alloc: Global) -> Result<Option<(EventId, Receipt)>, NoMemory>
        ensures stored { IfOk result (λ told. told ≡ option_map
            (λ event. (event_id event, receipt.Stored ((rules self.old).decide (room self.old).stored event))) (first_ready (room self.old))) }
        ensures after { OnOk result (room self.new ≡ advanced (rules self.old) (room self.old)) }
        ensures err { OnErr result (room self.new ≡ room self.old) }
        ensures kept { OnErr result (StaysPrepared is_prepared self.old self.new) }
        ensures none { first_ready (room self.old) ≡ None → IsOk result }
        ensures rules { rules self.new ≡ rules self.old };

    /// Makes an event of a draft, and all growths that storing it takes. Nothing changes that can be seen, and where it is refused an event
    /// that was prepared before stays prepared. The event has the fields of the draft, with its hash and the own signature, the room accepts
    /// it, and all that it names is stored.
    ///
    /// # Errors
    ///
    /// The first of these: `NotOwnUser` where the sender is no user id of the server `own()` of the keys; `BadDraft` where what is made
    /// is no event, with its fault; `NotAllowed` where the room would not accept it, with the rule. `Memory` where memory ran out, in
    /// place of an event or of the last two, since the event is made before it is looked at; but a content that nests too deep is told
    /// without memory.
    fn prepare<K: Keys>(
        &mut self,
        alloc: Global,
        draft: Draft,
        keys: &K,
    ) -> Result<Prepared, Refusal>
        ensures told { let signer = signer_of (K.own_name keys.now) (K.own_key keys.now) (K.own_signature keys.now) (K.checks keys.now) in
            (result ≡ prepared_of (rules self.old) signer (room self.old).stored draft) ⊎ (result ≡ Err Memory) }
        ensures foreign { is_own_user (K.own_name keys.now) draft.sender ≡ false → result ≡ Err NotOwnUser }
        ensures deep { is_own_user (K.own_name keys.now) draft.sender ≡ true → MAX_DEPTH < depth draft.content → result ≡ Err (BadDraft TooDeep) }
        ensures accepted { IfOk result (λ p. (rules self.old).decide (room self.old).stored p.event ≡ Accepted) }
        ensures before { IfOk result (λ p. p.before ≡ (rules self.old).before (room self.old).stored p.event.event) }
        ensures named { IfOk result (λ p. NamesStored (room self.old).stored p.before) }
        ensures bears { IfOk result (λ p. Bears draft p.event.event) }
        ensures ready { IfOk result (λ p. is_ready (room self.old).stored p.event.event ≡ true) }
        ensures prepared { IfOk result (λ p. is_prepared self.new p) }
        ensures kept { OnErr result (StaysPrepared is_prepared self.old self.new) }
        ensures stays { room self.new ≡ room self.old }
        ensures rules { rules self.new ≡ rules self.old };

    /// Stores a prepared event as accepted, and tells its id. A waiting event of that id waits no longer; where the id is stored
    /// already, the room stays as it is. It takes no memory.
    fn commit(&mut self, prepared: Prepared) -> EventId
        requires { is_prepared self.old prepared }
        ensures id { result ≡ event_id prepared.event }
        ensures after { room self.new ≡ committed (room self.old) prepared.event }
        ensures rules { rules self.new ≡ rules self.old };

    /// The state before a stored event; `None` where no event of this id is stored. It names stored events alone.
    fn state_before(&self, alloc: Global, id: &str) -> Result<Option<State>, NoMemory>
        ensures state { IfOk result (λ state. state ≡ option_map
            (λ stored. (rules self.now).before (room self.now).stored stored.event.event) (stored_at (room self.now).stored id.now)) }
        ensures unknown { stored_at (room self.now).stored id.now ≡ None → IsOk result }
        ensures named { IfOk result (λ state. IfSome state (λ s. NamesStored (room self.now).stored s)) };

    /// The current state. It names stored events alone.
    fn current(&self, alloc: Global) -> Result<State, NoMemory>
        ensures state { IfOk result (λ state. state ≡ (rules self.now).current (room self.now).stored) }
        ensures named { IfOk result (λ state. NamesStored (room self.now).stored state) };

    /// The forward extremities: the accepted events that no accepted event names as a prev event, in the order of storing.
    fn extremities(&self) -> &[EventId]
        ensures { result.now ≡ extremities_of (room self.now).stored };

    /// The events that wait, in the order of arrival.
    fn waiting(&self) -> &[Checked]
        ensures { result.now ≡ (room self.now).waiting };

    /// How many events were dropped.
    fn dropped(&self) -> u64
        ensures { result ≡ (room self.now).dropped };

    /// The events that are stored.
    fn graph(&self) -> &Graph
        ensures { result.now.stored ≡ (room self.now).stored };

    // The rules are such as every room relies on.
    ghost lawful: { (self : Self) → AreLawful (rules self) };
}
