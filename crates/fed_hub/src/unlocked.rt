// What lay under the locks of a hub.
ghost use Rattle.std.specs.Prelude.{◌↔◌, IsTrue, IfOk, map, string_bytes};
ghost use Rattle.fed_hub.specs.Report.{IsFitting, parts_of};

use crate::tokens::Tokens;
use fed_dest::{List, ServerIndex};
use fed_hub_kept::{
    are_answered, are_brought, are_given, are_in_places, are_of_journal, are_sent_as_stored,
};
use fed_hub_serving::{KeptInbox, ServingNaming};
use fed_hub_state::{KeptRoom, Naming, SeatedOutbox, SendingJournal};
use fed_hub_told::is_as_told;
use fed_json::NoMemory;
use fed_replies::PackedStore;
use std::alloc::Global;

/// What lay under the locks of a hub: its journal, the outboxes and the rooms in the order of their places, and the inbox with the history of
/// what it answered.
#[derive(Drop)]
pub(crate) struct Unlocked<N: Naming + ServingNaming> {
    pub(crate) journal: SendingJournal<N>,
    pub(crate) outboxes: Vec<SeatedOutbox<N>>,
    pub(crate) inbox: KeptInbox<N, PackedStore>,
    pub(crate) rooms: Vec<KeptRoom>,
}

impl<N: Naming + ServingNaming> Unlocked<N> {
    // Whether what lay under the locks of the server at this place fits together, and fits what its threads hold.
    pub(crate) fn fits(
        &self,
        alloc: Global,
        servers: &List,
        own: ServerIndex,
        known: &[String],
        tokens: &Tokens<N>,
    ) -> Result<bool, NoMemory>
        ensures { IfOk result (λ fits. IsTrue fits ↔ IsFitting servers.now own (map string_bytes known.now) (parts_of self.now) tokens.now) }
    {
        let (rooms, entries) = (self.rooms.as_slice(), self.journal.entries());
        if !are_in_places(rooms, known) {
            return Ok(false);
        }
        if !are_of_journal(&self.outboxes, entries) {
            return Ok(false);
        }
        if !are_given(rooms, &tokens.rooms) {
            return Ok(false);
        }
        if !is_as_told(alloc, &tokens.clients, entries)? {
            return Ok(false);
        }
        if !are_sent_as_stored(alloc, rooms, own, servers, entries)? {
            return Ok(false);
        }
        let points = self.inbox.points();
        if !are_brought(alloc, rooms, known, points)? {
            return Ok(false);
        }
        are_answered(alloc, &tokens.servers, points)
    }
}
