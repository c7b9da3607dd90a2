// A request that delivers a transaction to a server.
ghost use Rattle.std.specs.Prelude.{◌≡◌, ℕ, List, IfOk, IfErr, map, string_bytes};
ghost use Rattle.fed_inbox.specs.Delivery.{judged_of, first_reply, first_fresh};
ghost use Rattle.fed_inbox.specs.DeliveryParts.{delivered, judgement};
ghost use Rattle.fed_hub_serving.specs.Bound.{bound_of};
ghost use Rattle.fed_hub_serving.specs.Delivered.{IsDelivered};
ghost use Rattle.fed_hub_serving.specs.JudgedRequest.{IsJudged};

use crate::bound::{Bound, bound_for};
use crate::judged_request::JudgedRequest;
use fed_event::Keys;
use fed_http::{Reply, Request};
use fed_inbox::{Delivery, Judged, Receiver, Refusal};
use fed_json::NoMemory;
use std::alloc::Global;

/// A request that was read apart from the inbox of its server, and is signed, with the transaction that it delivers. What that brings was not
/// looked at.
#[derive(Drop)]
pub struct DeliveredRequest {
    pub(crate) request: Request,
    pub(crate) delivery: Delivery,
}

impl DeliveredRequest {
    /// Reads a request.
    ///
    /// # Errors
    ///
    /// A request that any inbox of the server refuses, judged; also where memory runs out.
    pub fn new<K: Keys>(
        alloc: Global,
        receiver: &Receiver,
        request: Request,
        keys: &K,
    ) -> Result<DeliveredRequest, JudgedRequest>
        ensures delivered { IfOk result (λ d. IsDelivered (K.checks keys.now) receiver.now d) }
        ensures request { IfOk result (λ d. d.request ≡ request) }
        ensures refused { (known : List (List ℕ)) → IfErr result (IsJudged (K.checks keys.now) receiver.now known) }
        ensures same { IfErr result (λ judged. judged.request ≡ request) }
    {
        match receiver.read(alloc, &request, keys) {
            Ok(delivery) => Ok(DeliveredRequest { request, delivery }),
            Err(refusal) => Err(JudgedRequest::refused(alloc, request, refusal)),
        }
    }

    /// Judges what it delivers, to a server with the rooms of these ids. Where memory runs out, that is what it comes to.
    pub fn judge<K: Keys>(
        self,
        alloc: Global,
        receiver: &Receiver,
        known: &[String],
        keys: &K,
    ) -> JudgedRequest
        requires { IsDelivered (K.checks keys.now) receiver.now self }
        ensures judged { IsJudged (K.checks keys.now) receiver.now (map string_bytes known.now) result }
        ensures request { result.request ≡ self.request }
    {
        let DeliveredRequest { request, delivery } = self;
        match judged(alloc, receiver, known, delivery, keys) {
            Ok((judged, reply, bound)) => JudgedRequest {
                request,
                comes_to: Ok(judged),
                reply,
                bound,
            },
            Err(NoMemory) => JudgedRequest::refused(alloc, request, Refusal::OutOfMemory),
        }
    }
}

// What is delivered, judged, with copies of the reply and of the events.
fn judged<K: Keys>(
    alloc: Global,
    receiver: &Receiver,
    known: &[String],
    delivery: Delivery,
    keys: &K,
) -> Result<(Judged, Reply, Vec<Bound>), NoMemory>
    ensures judged { IfOk result (λ r. judgement r.0 ≡ judged_of (K.checks keys.now) receiver.now.rooms (delivered delivery)) }
    ensures reply { IfOk result (λ r. r.1 ≡ first_reply (judgement r.0).comes_to) }
    ensures bound { IfOk result (λ r. r.2.items ≡ map (bound_of (map string_bytes known.now)) (first_fresh (judgement r.0).comes_to)) }
{
    let judged = receiver.judge(alloc, delivery, keys)?;
    let reply = judged.first_reply(alloc)?;
    let bound = bound_for(alloc, known, judged.first_fresh())?;
    Ok((judged, reply, bound))
}
