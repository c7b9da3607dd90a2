// What a client's thread holds.
ghost use Rattle.std.specs.Prelude.{◌≡◌, ◌+◌, ◌<◌};
ghost use Rattle.fed_hub_state.specs.ClientToken.{ClientShare};

use crate::naming::{EduLedger, EventLedger, Naming};
use fed_journal::Offered;
use std::marker::Model;
use std::sync::ledger::{Book, Share};

/// What a client's thread holds: how many events, and how many EDUs, it was told of. It has no bytes.
///
/// Contracts see these counts, and how many of the parts of the ledgers it has. Only who has a part is told of anything.
#[derive(Drop)]
pub struct ClientToken<N: Naming> {
    events: Share<EventLedger<N>>,
    edus: Share<EduLedger<N>>,
}

impl<N: Naming> Model for ClientToken<N> {
    ghost use Rattle.std.specs.Prelude.{◌≡◌};
    ghost use Rattle.fed_hub_state.specs.ClientToken.{ClientShare};

    ghost Value = { ClientShare };

    ghost view = { λ t. record { parts = t.events.parts; events = t.events.amount; edus = t.edus.amount } };

    ghost invariant = { λ t. t.edus.parts ≡ t.events.parts };
}

impl<N: Naming> ClientToken<N> {
    ghost use Rattle.fed_hub_state.specs.ClientToken.{with_told, event_count, edu_count};

    /// A token that was told of nothing, with these shares of the ledgers.
    pub(crate) fn new(events: Share<EventLedger<N>>, edus: Share<EduLedger<N>>) -> ClientToken<N>
        requires parts { edus.parts ≡ events.parts }
        ensures { result ≡ record { parts = events.parts; events = events.amount; edus = edus.amount } }
    {
        ClientToken { events, edus }
    }

    /// Compares the books with a token that has all parts of the ledgers.
    pub(crate) fn audit(&mut self, events: &mut Book<EventLedger<N>>, edus: &mut Book<EduLedger<N>>)
        requires { self.old.parts ≡ N.parts }
        ensures same { (self.new ≡ self.old) × (events.new.total ≡ events.old.total) × (edus.new.total ≡ edus.old.total) }
        ensures events { events.old.total ≡ self.old.events }
        ensures edus { edus.old.total ≡ self.old.edus }
    {
        events.audit(&mut self.events);
        edus.audit(&mut self.edus);
    }

    /// Notes, here and in the book of its kind, that the client is told of what is offered.
    pub(crate) fn note(
        &mut self,
        events: &mut Book<EventLedger<N>>,
        edus: &mut Book<EduLedger<N>>,
        offered: &Offered,
    )
        requires { 0 < self.old.parts }
        ensures told { self.new ≡ with_told self.old offered.now }
        ensures events { events.new.total ≡ events.old.total + event_count offered.now }
        ensures edus { edus.new.total ≡ edus.old.total + edu_count offered.now }
    {
        match offered {
            Offered::Event(_) => events.add(&mut self.events, 1),
            Offered::Edu(_) => edus.add(&mut self.edus, 1),
        }
    }

    /// A token of one part of this one, which was told of nothing.
    pub fn split(&mut self) -> ClientToken<N>
        requires { 1 < self.old.parts }
        ensures new { result ≡ record { parts = 1; events = 0; edus = 0 } }
        ensures parts { self.new.parts + 1 ≡ self.old.parts }
        ensures told { (self.new.events ≡ self.old.events) × (self.new.edus ≡ self.old.edus) }
    {
        ClientToken {
            events: self.events.split_off(1, 0),
            edus: self.edus.split_off(1, 0),
        }
    }

    /// Takes in another token, with what it was told of.
    pub fn merge(&mut self, other: ClientToken<N>)
        ensures { self.new ≡ record { parts = self.old.parts + other.parts; events = self.old.events + other.events; edus = self.old.edus + other.edus } }
    {
        let ClientToken { events, edus } = other;
        self.events.merge(events);
        self.edus.merge(edus);
    }
}
