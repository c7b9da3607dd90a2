// Events that a user of the own server wants to send.
ghost use Rattle.std.specs.Prelude.{◌≡◌, ◌≤◌, IfOk};

use fed_json::{Json, NoMemory};
use std::alloc::Global;
use std::marker::Model;

/// What a user of the own server wants to send: the room, the sender, the type, the state key of a state event, the content, and the
/// moment, in milliseconds since the Unix epoch, at most 2^53 - 1 (room version 10, "Event format"). Contracts see it as these values.
#[derive(Drop)]
pub struct Draft {
    pub room: String,
    pub sender: String,
    pub kind: String,
    pub state_key: Option<String>,
    pub content: Json,
    pub at_ms: u64,
}

impl Model for Draft {
    ghost use Rattle.std.specs.Prelude.{◌≤◌};
    ghost use Rattle.fed_room_contract.specs.Draft.{DraftFields, draft_code};

    ghost Value = { DraftFields };

    ghost coded = { draft_code };

    ghost use Rattle.fed_room_contract.specs.DraftParts.{fields_of};

    ghost view = { fields_of };

    ghost invariant = { λ d. d.at_ms ≤ 9007199254740991 };
}

impl Draft {
    /// An equal draft.
    pub fn copy(&self, alloc: Global) -> Result<Draft, NoMemory>
        ensures { IfOk result (λ draft. draft ≡ self.now) }
    {
        let state_key = match &self.state_key {
            Some(state_key) => Some(state_key.clone()?),
            None => None,
        };
        Ok(Draft {
            room: String::from_str(alloc, &self.room)?,
            sender: String::from_str(alloc, &self.sender)?,
            kind: String::from_str(alloc, &self.kind)?,
            state_key,
            content: self.content.copy()?,
            at_ms: self.at_ms,
        })
    }
}
