// How a call ends.
ghost use Rattle.std.specs.Prelude.{◌≡◌};
ghost use Rattle.fed_c.specs.Status.{number_of};
ghost use Rattle.fed_c.specs.declared.status.Status.TheVariants.{Memory};

use fed_json::NoMemory;

/// How a call ends. C sees its number.
#[derive(Clone, Copy, Debug, PartialEq, Eq)]
pub enum Status {
    /// The call has given its answer.
    Done,
    /// The answer takes more bytes than the buffer has; how many is told.
    BufferTooSmall,
    /// Memory ran out.
    Memory,
    /// The bytes are not UTF-8, or no JSON text, or nest deeper than 127 levels.
    NotJson,
    /// A number is not a whole one from -(2^53)+1 to 2^53-1, or is not written as one.
    NotCanonical,
    /// The value nests deeper than it may.
    TooDeep,
    /// The hash that an event gives is not its content hash, or it gives none.
    HashDiffers,
    /// A text is not UTF-8.
    NotUtf8,
    /// A field that an event may not lack is not there.
    MissingField,
    /// A field has a value of another kind than it may have, or the event itself is no object.
    WrongKind,
    /// The canonical text of an event, signatures and all, has more than 65,536 bytes.
    EventTooLarge,
    /// The text of a field has more than 255 bytes.
    FieldTooLong,
    /// A field names more than 10 auth events or 20 prev events.
    TooManyIds,
    /// The body of a transaction has more than 16,777,216 bytes.
    BodyTooLarge,
    /// A part of the body of a transaction is missing or of another kind.
    BadBody,
    /// A transaction has more than 50 events.
    TooManyPdus,
    /// A transaction has more than 100 ephemeral data units.
    TooManyEdus,
    /// The value is no list of verdicts.
    BadVerdicts,
    /// The text of an Authorization field is none of the scheme `X-Matrix`.
    BadHeader,
    /// A signature has not 64 bytes.
    BadSignature,
    /// An event has no signature of its sender's server.
    NotSigned,
    /// The value is no array of the events of a room, each behind those that it names.
    BadEvents,
    /// The value is no array of the ids of state events of the room, or no array of such arrays; or an event of a state is no state event, or
    /// stands at the type and state key of another one of the state.
    BadState,
    /// The value is no array of the names of servers.
    BadServers,
    /// The value is no array of texts, which are the ids of events.
    BadIds,
    /// An event names an auth event that is not among those that are given.
    MissingEvents,
    /// The version of the room is neither 10 nor 11.
    BadVersion,
}

impl Status {
    /// The number that C sees.
    pub fn number(self) -> u32
        ensures { result ≡ number_of self }
    {
        match self {
            Status::Done => 0,
            Status::BufferTooSmall => 1,
            Status::Memory => 2,
            Status::NotJson => 3,
            Status::NotCanonical => 4,
            Status::TooDeep => 5,
            Status::HashDiffers => 6,
            Status::NotUtf8 => 7,
            Status::MissingField => 8,
            Status::WrongKind => 9,
            Status::EventTooLarge => 10,
            Status::FieldTooLong => 11,
            Status::TooManyIds => 12,
            Status::BodyTooLarge => 13,
            Status::BadBody => 14,
            Status::TooManyPdus => 15,
            Status::TooManyEdus => 16,
            Status::BadVerdicts => 17,
            Status::BadHeader => 18,
            Status::BadSignature => 19,
            Status::NotSigned => 20,
            Status::BadEvents => 21,
            Status::BadState => 22,
            Status::BadServers => 23,
            Status::BadIds => 24,
            Status::MissingEvents => 25,
            Status::BadVersion => 26,
        }
    }
}

impl From<NoMemory> for Status {
    ghost from_gives = { λ _ status. status ≡ Memory };

    fn from(_error: NoMemory) -> Status {
        Status::Memory
    }
}
