// The way to an inbox.
ghost use Rattle.std.specs.Prelude.{◌≡◌, length, IfOk, IfErr};
ghost use Rattle.fed_hub_serving.specs.Delivered.{IsDelivered};
ghost use Rattle.fed_hub_serving.specs.JudgedRequest.{IsJudged};
ghost use Rattle.fed_hub_serving.specs.Served.{IsInboxReply, IsTakenIn};
ghost use Rattle.fed_hub_serving.specs.WireRoom.{IsFullOf};

use crate::delivered_request::DeliveredRequest;
use crate::full_wire::FullWire;
use crate::inbox_reply::InboxReply;
use crate::judged_request::JudgedRequest;
use crate::kept_inbox::KeptInbox;
use crate::naming::ServingNaming;
use crate::sections;
use fed_event::Keys;
use fed_replies::ReplyStore;
use fed_wires::{Credit, Credits};
use std::alloc::Global;
use std::sync::{Mutex, Wait};

/// A way to the inbox of a server. Contracts know the state of an inbox that is lent to one caller alone, and not that of one under a lock, which
/// other threads change too.
pub trait InboxAccess<N: ServingNaming> {
    ghost use Rattle.std.specs.Prelude.{Option};
    ghost use Rattle.fed_hub_serving.specs.Serving.{ServingState};

    ghost state: { Self → Option ServingState };

    /// Answers a request that delivers a transaction which was taken before, as `sections::repeat` does; or gives it back.
    fn repeat<K: Keys, R: Wait>(
        &mut self,
        rt: &R,
        alloc: Global,
        delivered: DeliveredRequest,
        keys: &K,
    ) -> Result<InboxReply, DeliveredRequest>
        requires { IsDelivered N.checks N.receiver delivered }
        ensures reply { IfOk result (λ r. IsInboxReply N.checks N.beginning delivered.request r.reply) }
        ensures taken { IfOk result (λ r. IsTakenIn N.checks N.known delivered.request r.reply r.number (state self.old) (state self.new)) }
        ensures back { IfErr result (λ back. (back ≡ delivered) × (state self.new ≡ state self.old)) };

    /// Answers a request that was judged apart from the inbox, as `sections::take` does. While a wire has no room for its events it waits.
    fn take<R: Wait>(&mut self, rt: &R, alloc: Global, judged: JudgedRequest) -> InboxReply
        requires { IsJudged N.checks N.receiver N.known judged }
        ensures reply { IsInboxReply N.checks N.beginning judged.request result.reply }
        ensures taken { IsTakenIn N.checks N.known judged.request result.reply result.number (state self.old) (state self.new) };
}

/// An inbox with its lock, and where threads that do not hold it wait for room in the rooms' wires.
#[derive(Drop)]
pub struct SharedInbox<N: ServingNaming, S: ReplyStore> {
    pub inbox: Mutex<KeptInbox<N, S>>,
    pub credits: Credits,
    ghost rooms: { credits ≡ length N.rooms },
}

/// An inbox under its lock.
#[derive(Drop)]
pub struct LockedInbox<'a, N: ServingNaming, S: ReplyStore> {
    pub shared: &'a SharedInbox<N, S>,
}

impl<N: ServingNaming, S: ReplyStore> LockedInbox<'_, N, S> {
    ghost use Rattle.fed_hub_serving.specs.Locked.{IsLockedReply};

    // Lays a credit in, if there is one, and tries to take the request.
    fn try_take<R: Wait>(
        &self,
        rt: &R,
        alloc: Global,
        credit: Option<Credit>,
        judged: JudgedRequest,
    ) -> Result<InboxReply, FullWire>
        requires { IsJudged N.checks N.receiver N.known judged }
        ensures reply { IfOk result (IsLockedReply N.checks N.beginning judged.request) }
        ensures full { IfErr result (IsFullOf N.rooms judged) }
    {
        let mut inbox = self.shared.inbox.lock(rt);
        if let Some(credit) = credit {
            inbox.give(credit);
        }
        sections::take(rt, alloc, &mut inbox, judged)
    }
}

impl<N: ServingNaming, S: ReplyStore> InboxAccess<N> for LockedInbox<'_, N, S> {
    ghost use Rattle.std.specs.Prelude.{None};

    ghost state = { λ _. None };

    fn repeat<K: Keys, R: Wait>(
        &mut self,
        rt: &R,
        alloc: Global,
        delivered: DeliveredRequest,
        keys: &K,
    ) -> Result<InboxReply, DeliveredRequest> {
        sections::repeat(alloc, &mut self.shared.inbox.lock(rt), delivered, keys)
    }

    fn take<R: Wait>(&mut self, rt: &R, alloc: Global, judged: JudgedRequest) -> InboxReply {
        let mut judged = judged;
        let mut credit = None;
        for _ in rt.forever() {
            match self.try_take(rt, alloc, credit, judged) {
                Ok(reply) => return reply,
                Err(full) => {
                    // No lock is held here.
                    credit = self.shared.credits.wait(rt, full.room);
                    judged = full.judged;
                }
            }
        }
        unreachable!()
    }
}

impl<N: ServingNaming, S: ReplyStore> InboxAccess<N> for KeptInbox<N, S> {
    ghost use Rattle.std.specs.Prelude.{Some};

    ghost state = { λ inbox. Some inbox };

    fn repeat<K: Keys, R: Wait>(
        &mut self,
        _rt: &R,
        alloc: Global,
        delivered: DeliveredRequest,
        keys: &K,
    ) -> Result<InboxReply, DeliveredRequest> {
        sections::repeat(alloc, self, delivered, keys)
    }

    fn take<R: Wait>(&mut self, rt: &R, alloc: Global, judged: JudgedRequest) -> InboxReply {
        let mut judged = judged;
        for _ in rt.forever() {
            match sections::take(rt, alloc, self, judged) {
                Ok(reply) => return reply,
                Err(full) => {
                    self.wait(rt, full.room);
                    judged = full.judged;
                }
            }
        }
        unreachable!()
    }
}
