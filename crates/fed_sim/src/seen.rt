// What others see of a world.
ghost use Rattle.std.specs.Prelude.{◌≡◌, length, map, option_and_then, option_map, slice_get};
ghost use Rattle.fed_sim.specs.Hosted.{rooms_of};
ghost use Rattle.fed_sim.specs.Packets.{way_from};
ghost use Rattle.fed_sim.specs.Rounds.{arrivals_at, due_at, queue_at};
ghost use Rattle.fed_sim.specs.ServerParts.{server_of};
ghost use Rattle.fed_sim.specs.WorldParts.{packet_of, replies_of, world_of};

use crate::hosted::Hosted;
use crate::outcome::Outcome;
use crate::packet::Packet;
use crate::server::Server;
use crate::way::Way;
use crate::world::World;
use fed_dest::{ServerIndex, ServerName};
use fed_inbox::Inbox;
use fed_journal::Journal;
use fed_outbox::Outbox;
use fed_replies::PackedStore;

impl World {
    /// The names of the servers, in the order of their bytes. A server is named by its place among them.
    pub fn names(&self) -> &[ServerName]
        ensures { result.now ≡ (world_of self.entry.now).names }
    {
        self.list.names()
    }

    /// What the steps answered, in their order.
    pub fn replies(&self) -> &[Outcome]
        ensures { result.now ≡ replies_of self.entry.now }
    {
        self.replies.as_slice()
    }

    /// What was sent, in order: the packet of number `k` stands at `k - 1`.
    pub fn packets(&self) -> &[Packet]
        ensures { map packet_of result.now ≡ (world_of self.entry.now).packets }
    {
        self.packets.as_slice()
    }

    /// The moment.
    pub fn now(&self) -> u64
        ensures { result ≡ (world_of self.entry.now).now }
    {
        self.now
    }

    /// The rooms of a server, in the order of the setup; `None` where it is not listed.
    pub fn rooms(&self, server: ServerIndex) -> Option<&[Hosted]>
        ensures { option_map (λ rooms. rooms_of rooms.now) result ≡ option_map (λ s. s.rooms) (slice_get (world_of self.entry.now).servers server) }
    {
        Some(self.servers.get(server.place())?.rooms.as_slice())
    }

    /// The journal of a server; `None` where it is not listed.
    pub fn journal(&self, server: ServerIndex) -> Option<&Journal>
        ensures { option_map (λ journal. journal.now.entries) result ≡ option_map (λ s. s.journal) (slice_get (world_of self.entry.now).servers server) }
    {
        Some(&self.servers.get(server.place())?.journal)
    }

    /// The outbox of a server for a destination; `None` where one of them is not listed or both are the same.
    pub fn outbox(&self, server: ServerIndex, dest: ServerIndex) -> Option<&Outbox>
        ensures { option_map (λ outbox. outbox.now) result ≡ option_map (λ way. way.outbox) (way_from (world_of self.entry.now) server dest) }
    {
        Some(self.servers.get(server.place())?.way(dest)?.outbox())
    }

    /// The inbox of a server; `None` where it is not listed.
    pub fn inbox(&self, server: ServerIndex) -> Option<&Inbox<PackedStore>>
        ensures { option_map (λ inbox. inbox.now.state) result ≡ option_map (λ s. s.inbox) (slice_get (world_of self.entry.now).servers server) }
    {
        Some(&self.servers.get(server.place())?.inbox)
    }

    /// How many parcels of a server wait for a destination.
    pub(crate) fn queued(&self, server: ServerIndex, dest: ServerIndex) -> usize
        ensures { result ≡ length (queue_at (world_of self.entry.now) server dest) }
    {
        match self.way(server, dest) {
            Some(way) => way.queued(),
            None => 0,
        }
    }

    /// How many events wait at a server in front of the room at this place.
    pub(crate) fn queued_at(&self, server: ServerIndex, place: usize) -> usize
        ensures { result ≡ length (arrivals_at (world_of self.entry.now) server place) }
    {
        match self.hosted(server, place) {
            Some(hosted) => hosted.queued(),
            None => 0,
        }
    }

    // The room of a server at this place.
    fn hosted(&self, server: ServerIndex, place: usize) -> Option<&Hosted>
        ensures { option_map (λ hosted. hosted.now.queue) result ≡ option_and_then (λ s. slice_get s.arrivals place) (slice_get (world_of self.entry.now).servers server) }
    {
        self.server(server)?.rooms.get(place)
    }

    /// When the unanswered transaction of a server for a destination is due.
    pub(crate) fn due_at(&self, server: ServerIndex, dest: ServerIndex) -> Option<u64>
        ensures { result ≡ due_at (world_of self.entry.now) server dest }
    {
        let outbox = self.way(server, dest)?.outbox();
        outbox.unanswered()?;
        Some(outbox.due_at())
    }

    /// A listed server.
    pub(crate) fn server(&self, server: ServerIndex) -> Option<&Server>
        ensures { option_map (λ s. server_of s.now) result ≡ slice_get (world_of self.entry.now).servers server }
    {
        self.servers.get(server.place())
    }

    // The way from a server to a destination.
    fn way(&self, server: ServerIndex, dest: ServerIndex) -> Option<&Way>
        ensures { option_map (λ way. way.now.way) result ≡ way_from (world_of self.entry.now) server dest }
    {
        self.server(server)?.way(dest)
    }
}
