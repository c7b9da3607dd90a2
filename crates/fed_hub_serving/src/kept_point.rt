// A point of the history that an inbox keeps.
ghost use Rattle.std.specs.Prelude.{◌≡◌};

use fed_event::Checked;
use fed_http::{Reply, Request};
use std::marker::Model;

/// A request that an inbox answered, with the reply and the events that it brought for the rooms.
#[derive(Drop)]
pub struct KeptPoint {
    request: Request,
    reply: Reply,
    fresh: Vec<Checked>,
}

impl Model for KeptPoint {
    ghost use Rattle.fed_inbox.specs.History.{Point};
    ghost use Rattle.fed_hub_serving.specs.Points.{point_code};

    ghost Value = { Point };

    ghost coded = { point_code };

    ghost view = { λ p. record { request = p.request; reply = p.reply; fresh = p.fresh.items } };
}

impl KeptPoint {
    /// The point of a request with this reply, which brought these events.
    pub(crate) fn new(request: Request, reply: Reply, fresh: Vec<Checked>) -> KeptPoint
        ensures { result ≡ record { request = request; reply = reply; fresh = fresh.items } }
    {
        KeptPoint {
            request,
            reply,
            fresh,
        }
    }

    /// The request.
    pub fn request(&self) -> &Request
        ensures { result.now ≡ self.now.request }
    {
        &self.request
    }

    /// The reply to it.
    pub fn reply(&self) -> &Reply
        ensures { result.now ≡ self.now.reply }
    {
        &self.reply
    }

    /// The events that it brought for the rooms, in order.
    pub fn fresh(&self) -> &[Checked]
        ensures { result.now ≡ self.now.fresh }
    {
        &self.fresh
    }
}
