// What a server takes.
ghost use Rattle.std.specs.Prelude.{◌≡◌, ◌<◌, All, OnOk, OnErr, IfOk, IfSome, length, map, position, bytes_eq, string_bytes};
ghost use Rattle.fed_sim.specs.Hosted.{rooms_of, arrivals_of};
ghost use Rattle.fed_inbox.specs.Queues.{queues_after};
ghost use Rattle.fed_inbox.specs.Rooms.{room_set};
ghost use Rattle.fed_sim.specs.Taking.{HasRoom, IsOfKnown, IsTakeAt};

use crate::hosted::Hosted;
use crate::server::Server;
use fed_event::Checked;
use fed_http::{Reply, Request};
use fed_inbox::{what_a_new_inbox_knows, what_the_queues_get};
use fed_json::NoMemory;
use fed_outbox::MAX_PDUS;
use std::alloc::Global;

impl Server {
    ghost use Rattle.fed_sim.specs.ServerParts.{server_of};

    /// A request reaches the server: the reply of its inbox. What the inbox has taken for the rooms then waits in front of them. Nothing
    /// changes where memory for that runs out.
    pub(crate) fn take(
        &mut self,
        alloc: Global,
        known: &[String],
        request: &Request,
    ) -> Result<Reply, NoMemory>
        requires known { length self.old.rooms.items ≡ length known.now }
        requires inbox { self.old.inbox.state.rooms ≡ room_set (map string_bytes known.now) }
        ensures taken { IfOk result (λ reply. IsTakeAt (map string_bytes known.now) request.now (server_of self.old) reply (server_of self.new)) }
        ensures err { OnErr result (server_of self.new ≡ server_of self.old) }
    {
        make_room(&mut self.rooms)?;
        let reply = self.inbox.answer(alloc, request, &self.keys);
        let events = self.inbox.fresh();
        what_a_new_inbox_knows();
        what_the_queues_get();
        push_all(&mut self.rooms, known, events);
        Ok(reply)
    }
}

/// The place of a room among these.
pub(crate) fn place_of(known: &[String], room: &str) -> Option<usize>
    ensures place { result ≡ position (λ id. bytes_eq (string_bytes id) room.now) known.now }
    ensures within { IfSome result (λ place. place < length known.now) }
{
    known.iter().position(|id| id.as_str() == room)
}

// Makes room for the events of one transaction in front of each room.
fn make_room(rooms: &mut [Hosted]) -> Result<(), NoMemory>
    ensures ok { OnOk result (HasRoom 50 rooms.new) }
    ensures rooms { rooms_of rooms.new ≡ rooms_of rooms.old }
    ensures arrivals { arrivals_of rooms.new ≡ arrivals_of rooms.old }
    ensures count { length rooms.new ≡ length rooms.old }
{
    for hosted in rooms.iter_mut() {
        hosted.make_room(MAX_PDUS)?;
    }
    Ok(())
}

// Each event waits in front of its room.
fn push_all(rooms: &mut [Hosted], known: &[String], events: Vec<Checked>)
    requires room { HasRoom (length events.items) rooms.old }
    requires known { length rooms.old ≡ length known.now }
    requires events { All (IsOfKnown (map string_bytes known.now)) events.items }
    ensures rooms { rooms_of rooms.new ≡ rooms_of rooms.old }
    ensures arrivals { arrivals_of rooms.new ≡ queues_after (map string_bytes known.now) events.items (arrivals_of rooms.old) }
    ensures count { length rooms.new ≡ length rooms.old }
{
    for event in events {
        let place = place_of(known, event.event().room_id()).unwrap();
        rooms[place].push(event);
    }
}
