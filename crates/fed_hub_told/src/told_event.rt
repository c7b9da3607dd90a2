// An event that a client was told of.
ghost use Rattle.std.specs.Prelude.{◌≡◌, ◌↔◌, IsTrue, IfOk, option_map, string_bytes};
ghost use Rattle.fed_room_contract.specs.Draft.{Bears};

use crate::note::Note;
use fed_event::{Checked, EventId, Pdu};
use fed_json::NoMemory;
use fed_room_contract::Draft;

/// An event that a client was told of: what it wanted to send, and the number among the events of the journal, from 1, and the id that it was
/// told.
#[derive(Drop)]
pub struct ToldEvent {
    pub draft: Draft,
    pub number: u64,
    pub event_id: EventId,
}

impl Note<&Checked> for ToldEvent {
    ghost use Rattle.fed_hub_told.specs.AsTold.{IsEventOf};

    ghost number = { λ told. told.number };

    ghost IsOf = { λ told event. IsEventOf told event.now };

    fn number(&self) -> u64
        ensures { result ≡ self.now.number }
    {
        self.number
    }

    fn is_of(&self, event: &&Checked) -> Result<bool, NoMemory> {
        let event = event.event();
        if *event.id() != self.event_id {
            return Ok(false);
        }
        bears(event, &self.draft)
    }
}

// Whether an event has the fields of a draft.
fn bears(event: &Pdu, draft: &Draft) -> Result<bool, NoMemory>
    ensures { IfOk result (λ is. IsTrue is ↔ Bears draft.now event.now) }
{
    let are_equal = event.room_id() == draft.room.as_str()
        && event.sender() == draft.sender.as_str()
        && event.kind() == draft.kind.as_str()
        && is_same_key(event.state_key(), &draft.state_key)
        && event.origin_server_ts() == draft.at_ms as i64;
    if !are_equal {
        return Ok(false);
    }
    let content = event.content().to_json()?;
    Ok(content == draft.content)
}

// Whether two state keys are one, or there are none.
fn is_same_key(key: Option<&str>, other: &Option<String>) -> bool
    ensures { IsTrue result ↔ (option_map (λ s. s.now) key.entry ≡ option_map string_bytes other.now) }
{
    match (key, other) {
        (Some(key), Some(other)) => key == other.as_str(),
        (None, None) => true,
        _ => false,
    }
}
