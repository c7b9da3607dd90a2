// A request on its way to the inbox of a server.
ghost use Rattle.std.specs.Prelude.{◌≡◌, ℕ, List};
ghost use Rattle.fed_event.specs.Keys.{Checks};
ghost use Rattle.fed_inbox.specs.Delivery.{Refuses};
ghost use Rattle.fed_inbox.specs.Receiver.{ReceiverState};
ghost use Rattle.fed_hub_serving.specs.JudgedRequest.{IsJudged};

use crate::bound::Bound;
use fed_http::{Reply, Request};
use fed_inbox::{Judged, Refusal};
use std::alloc::Global;

/// A request that was read and judged apart from the inbox of its server: what it comes to where no reply is kept for it, with copies of that
/// reply, and of the events that it then brings, each with the place of its room.
#[derive(Drop)]
pub struct JudgedRequest {
    pub(crate) request: Request,
    pub(crate) comes_to: Result<Judged, Refusal>,
    pub(crate) reply: Reply,
    pub(crate) bound: Vec<Bound>,
}

impl JudgedRequest {
    /// A request that any inbox of its server refuses.
    pub(crate) fn refused(alloc: Global, request: Request, refusal: Refusal) -> JudgedRequest
        ensures judged { (checks : Checks) (receiver : ReceiverState) (known : List (List ℕ)) → Refuses checks receiver request refusal → IsJudged checks receiver known result }
        ensures request { result.request ≡ request }
    {
        JudgedRequest {
            request,
            comes_to: Err(refusal),
            reply: Reply::from(refusal),
            bound: Vec::new(alloc),
        }
    }
}
