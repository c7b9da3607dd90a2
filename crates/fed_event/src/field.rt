// The fields of an event.
ghost use Rattle.std.specs.Prelude.{◌≡◌, Some};
ghost use Rattle.fed_event.specs.Field.{field_name};

use std::fmt;

/// A field of an event (room version 10, "Event format"). `Event` stands for the event itself.
#[derive(Clone, Copy, Debug, PartialEq, Eq)]
pub enum Field {
    Event,
    AuthEvents,
    Content,
    Depth,
    Hashes,
    OriginServerTs,
    PrevEvents,
    RoomId,
    Sender,
    Signatures,
    StateKey,
    Type,
}

impl Field {
    /// The name of the field in JSON, and `event` for the event itself.
    pub fn name(self) -> &'static str
        ensures { result.now ≡ field_name self }
    {
        match self {
            Field::Event => "event",
            Field::AuthEvents => "auth_events",
            Field::Content => "content",
            Field::Depth => "depth",
            Field::Hashes => "hashes",
            Field::OriginServerTs => "origin_server_ts",
            Field::PrevEvents => "prev_events",
            Field::RoomId => "room_id",
            Field::Sender => "sender",
            Field::Signatures => "signatures",
            Field::StateKey => "state_key",
            Field::Type => "type",
        }
    }
}

impl fmt::Display for Field {
    ghost output = { λ field. Some (field_name field) };

    fn fmt<W: fmt::Write>(&self, f: &mut fmt::Formatter<W>) -> fmt::Result {
        f.write_str(self.name())
    }
}
