// What a hub did, once all of its threads have returned.
use fed_hub_serving::{KeptInbox, ServingNaming};
use fed_hub_state::{KeptRoom, Naming, SendingJournal};
use fed_outbox::Outbox;
use fed_replies::PackedStore;

/// What a hub did, once all of its threads have returned: its journal, the outboxes and the rooms in the order of their places, the inbox with
/// the history of what it answered, and how many events the board shows as delivered to each server.
#[derive(Drop)]
pub struct Report<N: Naming + ServingNaming> {
    pub journal: SendingJournal<N>,
    pub outboxes: Vec<Outbox>,
    pub inbox: KeptInbox<N, PackedStore>,
    pub rooms: Vec<KeptRoom>,
    pub delivered: Vec<u64>,
}
