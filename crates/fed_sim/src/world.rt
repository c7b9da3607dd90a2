// A world of servers, and the moment in it.
ghost use Rattle.std.specs.Prelude.{◌≤◌};
ghost use Rattle.fed_sim.specs.Running.{ComesOfRun};
ghost use Rattle.fed_sim.specs.WorldFields.{world_with};

use crate::outcome::Outcome;
use crate::packet::Packet;
use crate::server::Server;
use fed_dest::List;

/// The greatest moment, 2^53 - 1, in milliseconds.
pub const MAX_MOMENT: u64 = 9_007_199_254_740_991;

/// Servers with their rooms, journals, outboxes and inboxes, what is on its way between them, and one moment, in milliseconds since the
/// Unix epoch.
///
/// Each world comes of a run: of steps, from the beginning of a setup, or of those that a round of calm is made of.
#[derive(Drop)]
pub struct World {
    pub(crate) list: List,
    pub(crate) known: Vec<String>,
    pub(crate) epoch: u64,
    pub(crate) servers: Vec<Server>,
    pub(crate) packets: Vec<Packet>,
    pub(crate) now: u64,
    pub(crate) replies: Vec<Outcome>,
    ghost within: { now ≤ 9007199254740991 },
    ghost comes: { ∥ ComesOfRun (world_with list known.items epoch servers.items packets.items now) ∥₁ },
}
