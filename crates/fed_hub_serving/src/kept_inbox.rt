// An inbox under its lock.
ghost use Rattle.std.specs.Prelude.{◌≡◌, ◌≢◌, [], false, true, None, IfOk, IfErr, OnErr, length, replicate};
ghost use Rattle.fed_inbox.specs.History.{IsHistory};
ghost use Rattle.fed_inbox.specs.Receiver.{IsInboxOf};
ghost use Rattle.fed_hub_serving.specs.Wires.{AreUnused, names_of};
ghost use Rattle.fed_hub_serving.specs.Delivered.{IsDelivered};
ghost use Rattle.fed_hub_serving.specs.JudgedRequest.{IsJudged};
ghost use Rattle.fed_hub_serving.specs.Serving.{IsKeptFrom, AreLeft, with_rooms_ended};
ghost use Rattle.fed_hub_serving.specs.Sections.{RequestIsTaken, IsServed};
ghost use Rattle.fed_hub_serving.specs.Unserved.{IsUnserved};
ghost use Rattle.fed_hub_serving.specs.WireRoom.{IsFullOf};

use crate::answering::{Answered, answer, kept_reply};
use crate::bound::Bound;
use crate::delivered_request::DeliveredRequest;
use crate::end_place::EndPlace;
use crate::full_wire::{FullRoom, FullWire, Unserved};
use crate::inbox_reply::InboxReply;
use crate::judged_request::JudgedRequest;
use crate::kept_point::KeptPoint;
use crate::naming::ServingNaming;
use crate::room_wire::EndedWire;
use crate::room_wires::RoomWires;
use fed_event::{Checked, Keys};
use fed_http::Reply;
use fed_inbox::{Inbox, Refusal};
use fed_json::NoMemory;
use fed_replies::ReplyStore;
use fed_wires::{AnyMessage, Credit, SendEnd};
use std::alloc::Global;
use std::marker::{Model, PhantomData};
use std::sync::Wait;

/// The inbox of a server, with the history of the requests that it answered and the ends that send of the rooms' wires. Whenever its lock is
/// free it is the inbox after this history; and over the wire of each room went just the events that the history brought for the room, in
/// order, up to where the wire ended.
///
/// Contracts see it as the inbox, the history, where each wire ended, and whether all were ended.
#[derive(Drop)]
pub struct KeptInbox<N: ServingNaming, S: ReplyStore> {
    inbox: Inbox<S>,
    points: Vec<KeptPoint>,
    wires: RoomWires,
    of: PhantomData<N>,
}

impl<N: ServingNaming, S: ReplyStore> Model for KeptInbox<N, S> {
    ghost use Rattle.std.specs.Prelude.{map};
    ghost use Rattle.fed_hub_serving.specs.Serving.{ServingState, serving_code, ended_in, IsServing};

    ghost Value = { ServingState };

    ghost coded = { serving_code };

    ghost view = { λ k. record { inbox = k.inbox.state; points = k.points.items; ended = ended_in k.wires; is_shut = k.wires.is_shut } };

    ghost invariant = { λ k. IsServing N.rooms N.known N.checks N.receiver N.beginning k.points.items k.inbox.state k.wires };
}

impl<N: ServingNaming, S: ReplyStore + Drop> KeptInbox<N, S> {
    /// An inbox that has answered no request, with the ends that send of the rooms' wires, over which nothing went. Who waits for room in the
    /// wires has [`Credits`] of the ends, made before.
    ///
    /// [`Credits`]: fed_wires::Credits
    pub fn new(
        alloc: Global,
        inbox: Inbox<S>,
        ends: Vec<SendEnd<Checked, AnyMessage>>,
    ) -> Result<KeptInbox<N, S>, NoMemory>
        requires beginning { inbox.state ≡ N.beginning }
        requires receiver { IsInboxOf N.receiver inbox.state }
        requires wires { names_of ends.items ≡ N.rooms }
        requires unused { AreUnused ends.items }
        ensures { IfOk result (λ kept. kept ≡ record { inbox = inbox.state; points = []; ended = replicate (length ends.items) None; is_shut = false }) }
    {
        let wires = RoomWires::new(alloc, ends)?;
        Ok(KeptInbox {
            inbox,
            points: Vec::new(alloc),
            wires,
            of: PhantomData,
        })
    }
}

impl<N: ServingNaming, S: ReplyStore> KeptInbox<N, S> {
    /// The inbox.
    pub fn inbox(&self) -> &Inbox<S>
        ensures { result.now.state ≡ self.now.inbox }
    {
        &self.inbox
    }

    /// The history of the requests that it answered, in order and numbered from 1; those that it answered 500 are not among them. It is the
    /// inbox after these requests.
    pub fn points(&self) -> &[KeptPoint]
        ensures points { result.now ≡ self.now.points }
        ensures history { IsKeptFrom N.checks N.beginning self.now }
    {
        &self.points
    }

    /// What is left of the rooms' wires, once they are all ended: over each went just the events that the history brought for its room, up
    /// to where it ended.
    pub fn ended(&self) -> &[EndedWire]
        ensures { self.now.is_shut ≡ true → AreLeft N.rooms N.known self.now result.now }
    {
        self.wires.ended()
    }

    /// Waits until there is more room in the wire to the room at this place, or until its other end is gone.
    pub(crate) fn wait<R: Wait>(&mut self, rt: &R, room: usize)
        ensures { self.new ≡ self.old }
    {
        self.wires.wait(rt, room);
    }

    /// Takes in a credit that was waited for, of the wire to the room at its place. Where that has ended it is let go.
    pub fn give(&mut self, credit: Credit)
        ensures { self.new ≡ self.old }
    {
        self.wires.give(credit);
    }

    /// Ends the wires of all rooms, each here where it has not ended before: what is taken from now on goes to no room. It takes no memory.
    pub fn end_rooms(&mut self)
        ensures { self.new ≡ with_rooms_ended self.old }
    {
        let points = self.points.len();
        self.wires.end_all(EndPlace { points, events: 0 });
    }

    /// Answers a request that delivers a transaction which was taken before: with the kept reply. It is kept with it among the history; with the
    /// reply this gives the number of the new point.
    ///
    /// # Errors
    ///
    /// Where no reply is kept for the transaction, or memory runs out; all is then as it was.
    pub(crate) fn repeat<K: Keys>(
        &mut self,
        alloc: Global,
        delivered: DeliveredRequest,
        keys: &K,
    ) -> Result<InboxReply, DeliveredRequest>
        requires { IsDelivered N.checks N.receiver delivered }
        ensures taken { IfOk result (λ r. RequestIsTaken N.checks N.known delivered.request self.old r.reply r.number self.new) }
        ensures back { IfErr result (λ back. back ≡ delivered) }
        ensures same { OnErr result (self.new ≡ self.old) }
        ensures history { IsKeptFrom N.checks N.beginning self.old }
    {
        let Ok(()) = self.points.reserve(1) else {
            return Err(delivered);
        };
        let delivery = &delivered.delivery;
        let Some((reply, copy)) = kept_reply(alloc, &mut self.inbox, delivery, keys) else {
            return Err(delivered);
        };
        let DeliveredRequest { request, .. } = delivered;
        // There is room for it.
        self.points
            .push(KeptPoint::new(request, copy, Vec::new(alloc)))
            .unwrap();
        let number = Some(self.points.len() as u64);
        Ok(InboxReply { reply, number })
    }

    /// Answers a request that was judged apart from the inbox, keeps it with its reply among the history, and sends the events that it brings
    /// over the wires to their rooms. With the reply it gives the number of the new point. Where memory runs out it answers 500 without a
    /// number, and all is as it was.
    ///
    /// # Errors
    ///
    /// Where the wire to a room was found to have no room for all events that the request may bring for it; all is then as it was.
    pub(crate) fn take<R: Wait>(
        &mut self,
        rt: &R,
        alloc: Global,
        judged: JudgedRequest,
    ) -> Result<InboxReply, FullWire>
        requires { IsJudged N.checks N.receiver N.known judged }
        ensures taken { IfOk result (λ r. RequestIsTaken N.checks N.known judged.request self.old r.reply r.number self.new) }
        ensures full { IfErr result (IsFullOf N.rooms judged) }
        ensures same { OnErr result (self.new ≡ self.old) }
        ensures history { IsKeptFrom N.checks N.beginning self.old }
    {
        let reply = match self.serve(rt, alloc, judged) {
            Ok(reply) => reply,
            Err(Unserved::Full(full)) => return Err(full),
            Err(Unserved::Memory) => {
                return Ok(InboxReply {
                    reply: Reply::from(Refusal::OutOfMemory),
                    number: None,
                });
            }
        };
        Ok(InboxReply {
            reply,
            number: Some(self.points.len() as u64),
        })
    }

    // The same, but for the reply where memory runs out.
    fn serve<R: Wait>(
        &mut self,
        rt: &R,
        alloc: Global,
        judged: JudgedRequest,
    ) -> Result<Reply, Unserved>
        requires { IsJudged N.checks N.receiver N.known judged }
        ensures served { IfOk result (λ reply. IsServed N.checks N.known judged.request self.old reply self.new) }
        ensures unserved { IfErr result (IsUnserved N.rooms judged) }
        ensures err { OnErr result (self.new ≡ self.old) }
        ensures history { IsKeptFrom N.checks N.beginning self.old }
    {
        if let Some(FullRoom { room, no_room }) = self.wires.full_among(rt, &judged.bound) {
            return Err(Unserved::Full(FullWire {
                judged,
                room,
                no_room,
            }));
        }
        let JudgedRequest {
            request,
            comes_to,
            reply: first,
            bound,
        } = judged;
        self.points.reserve(1)?;
        let Answered { reply, copy, fresh } = answer(alloc, &mut self.inbox, comes_to, first)?;
        let bound = all_or_none(alloc, &fresh, bound);
        let points = self.points.len();
        self.wires.pass_all_on::<N, R>(rt, points, bound);
        // There is room for it.
        self.points
            .push(KeptPoint::new(request, copy, fresh))
            .unwrap();
        Ok(reply)
    }
}

// The copies of the events that a request brings, where it brought any.
fn all_or_none(alloc: Global, fresh: &[Checked], bound: Vec<Bound>) -> Vec<Bound>
    ensures none { fresh.now ≡ [] → result.items ≡ [] }
    ensures all { fresh.now ≢ [] → result.items ≡ bound.items }
{
    if fresh.is_empty() {
        return Vec::new(alloc);
    }
    bound
}
