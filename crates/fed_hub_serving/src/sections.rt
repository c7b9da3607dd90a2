//! The sections: what a thread does while it holds the inbox's lock. Each is one function that is lent what lies under it, and what it does is
//! the definition of the same step at a server of one thread.
//!
//! No section waits for room in a wire. Take asks first whether each wire has room for all the events that the request may bring for its room,
//! and gives the request back where one has not. The thread then lets the lock go, waits for a credit of that wire (`fed_wires::Credits`), takes
//! the lock, lays it in ([`KeptInbox::give`]) and takes the same request.
ghost use Rattle.std.specs.Prelude.{◌≡◌, IfOk, IfErr, OnErr};
ghost use Rattle.fed_hub_serving.specs.Delivered.{IsDelivered};
ghost use Rattle.fed_hub_serving.specs.JudgedRequest.{IsJudged};
ghost use Rattle.fed_hub_serving.specs.Serving.{IsKeptFrom};
ghost use Rattle.fed_hub_serving.specs.Sections.{RequestIsTaken};
ghost use Rattle.fed_hub_serving.specs.WireRoom.{IsFullOf};

use crate::delivered_request::DeliveredRequest;
use crate::full_wire::FullWire;
use crate::inbox_reply::InboxReply;
use crate::judged_request::JudgedRequest;
use crate::kept_inbox::KeptInbox;
use crate::naming::ServingNaming;
use fed_event::Keys;
use fed_replies::ReplyStore;
use std::alloc::Global;
use std::sync::Wait;

/// Take, of a request that delivers a transaction which was taken before: it gets the kept reply. The request is kept with it as a point of the
/// history, and the point's number is given. It comes before what the request brings is judged, and takes memory for the reply alone.
///
/// # Errors
///
/// Where no reply is kept for the transaction, or memory runs out; all is then as it was.
pub fn repeat<N: ServingNaming, K: Keys, S: ReplyStore>(
    alloc: Global,
    inbox: &mut KeptInbox<N, S>,
    delivered: DeliveredRequest,
    keys: &K,
) -> Result<InboxReply, DeliveredRequest>
    requires { IsDelivered N.checks N.receiver delivered }
    ensures taken { IfOk result (λ r. RequestIsTaken N.checks N.known delivered.request inbox.old r.reply r.number inbox.new) }
    ensures back { IfErr result (λ back. back ≡ delivered) }
    ensures same { OnErr result (inbox.new ≡ inbox.old) }
    ensures history { IsKeptFrom N.checks N.beginning inbox.old }
{
    inbox.repeat(alloc, delivered, keys)
}

/// Take: a request that was judged apart from the inbox is answered. Where its transaction was taken before it gets the kept reply; else it is
/// taken where it is to be, and its events go over the wires to their rooms. The request is kept with its reply as a point of the history, and
/// the point's number is given; but where memory runs out the answer is 500, without a number, and all is as it was.
///
/// # Errors
///
/// Where the wire to a room was found to have no room for all events that the request may bring for it; all is then as it was.
pub fn take<N: ServingNaming, S: ReplyStore, R: Wait>(
    rt: &R,
    alloc: Global,
    inbox: &mut KeptInbox<N, S>,
    judged: JudgedRequest,
) -> Result<InboxReply, FullWire>
    requires { IsJudged N.checks N.receiver N.known judged }
    ensures taken { IfOk result (λ r. RequestIsTaken N.checks N.known judged.request inbox.old r.reply r.number inbox.new) }
    ensures full { IfErr result (IsFullOf N.rooms judged) }
    ensures same { OnErr result (inbox.new ≡ inbox.old) }
    ensures history { IsKeptFrom N.checks N.beginning inbox.old }
{
    inbox.take(rt, alloc, judged)
}
