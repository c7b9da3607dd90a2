// What the threads of a hub do that serve other servers, and that store what came for a room.
ghost use Rattle.std.specs.Prelude.{◌≡◌, None};
ghost use Rattle.fed_hub_serving.specs.Served.{IsServed};
ghost use Rattle.fed_hub_rooms.specs.Turns.{RoomRuns};

use crate::hub::Hub;
use fed_event::Keys;
use fed_hub_rooms::{LockedRoom, Ran, RoomToken, run_room};
use fed_hub_serving::{ServeToken, Served, ServingNaming};
use fed_hub_state::Naming;
use std::alloc::Global;
use std::io::{Read, Write};
use std::sync::Wait;

impl<N: Naming + ServingNaming, K: Keys + Drop> Hub<N, K> {
    /// Reads one request off a reader, answers it by the inbox, and writes the reply (Server-Server API, "Transactions"). Bytes that are no
    /// request are answered 400 or 413. A transaction that came before gets the kept reply; else what it brings is taken, and the new events
    /// go over the wires to the threads of their rooms. It waits while a wire is full. Where memory runs out the answer is 500, and the inbox
    /// is as it was. No lock is held while a reader or a writer is at work.
    ///
    /// What it tells:
    ///
    /// - `Answered`, the status of the reply, which was written whole, to a HEAD without its body
    /// - `ReadFault` where a read failed, and `EndedEarly` where the input ended, before a request was whole; nothing is written then
    /// - `WriteFault` where a write failed; a front of the reply was written, and a transaction that was taken stays taken
    pub fn serve_one<R: Read, W: Write, T: Wait>(
        &self,
        rt: &T,
        alloc: Global,
        token: &mut ServeToken<N>,
        reader: &mut R,
        writer: &mut W,
    ) -> Served
        ensures { IsServed N.checks N.known N.beginning (record { left = R.remaining reader.old; written = W.contents writer.old; inbox = None; given = token.old }) (record { left = R.remaining reader.new; written = W.contents writer.new; inbox = None; given = token.new }) result }
    {
        self.reception
            .serve_one(rt, alloc, &self.keys, token, reader, writer)
    }

    /// Stores what comes over the wire of the token's room, in at most so many turns (Server-Server API, "Checks performed on receipt of a
    /// PDU"). A turn gives one event to the room: the one in hand, or the next that comes over the wire, for which it waits. The room's lock
    /// is held while an event is stored, and not while one is waited for.
    ///
    /// What it tells:
    ///
    /// - `Drained` where the other end of the wire is gone, as after `shut_down`, and nothing is in hand
    /// - `TurnsSpent` where that many events were given, and all that was ready each time is stored
    /// - `Memory` where memory ran out. An event that the room did not receive is in hand, and the next call gives it first
    pub fn run_room<R: Wait>(
        &self,
        rt: &R,
        alloc: Global,
        token: &mut RoomToken<N>,
        turns: u64,
    ) -> Ran
        ensures { RoomRuns turns token.old None result token.new None }
    {
        let room = self.rooms.at(token.room());
        run_room(rt, alloc, &mut LockedRoom { room }, token, turns)
    }
}
