// How much is sent, and what comes of it.
ghost use Rattle.std.specs.Prelude.{◌≡◌, ◌≤◌, ◌↔◌, IsSome, IfSome};

use std::fmt;

/// The most events.
pub const MAX_EVENTS: u64 = 1000;

/// The most clients.
pub const MAX_CLIENTS: u64 = 8;

/// How many events are sent, by how many clients: 1 to `MAX_EVENTS`, and 1 to `MAX_CLIENTS`.
#[derive(Clone, Copy, Debug, PartialEq, Eq)]
pub struct Load {
    pub events: u64,
    pub clients: u64,
    ghost events_within: { (1 ≤ events) × (events ≤ 1000) },
    ghost clients_within: { (1 ≤ clients) × (clients ≤ 8) },
}

impl Load {
    /// So many events by so many clients; `None` where they are none or too many.
    pub fn new(events: u64, clients: u64) -> Option<Load>
        ensures fits { IsSome result ↔ ((1 ≤ events) × (events ≤ 1000) × (1 ≤ clients) × (clients ≤ 8)) }
        ensures load { IfSome result (λ load. (load.events ≡ events) × (load.clients ≡ clients)) }
    {
        if (1..=MAX_EVENTS).contains(&events) && (1..=MAX_CLIENTS).contains(&clients) {
            return Some(Load { events, clients });
        }
        None
    }
}

/// How many events the one server has in its journal, how many the other took from it, and how many the one shows as delivered. Each is told in
/// a line of its own.
#[derive(Clone, Copy, Debug, PartialEq, Eq)]
pub struct Counts {
    pub sent: u64,
    pub taken: u64,
    pub delivered: u64,
}

impl fmt::Display for Counts {
    fn fmt<W: fmt::Write>(&self, f: &mut fmt::Formatter<W>) -> fmt::Result {
        let Counts {
            sent,
            taken,
            delivered,
        } = self;
        write!(f, "sent {sent}\ntaken {taken}\ndelivered {delivered}\n")
    }
}
