// What steps of a world answer.
use fed_dest::ServerSet;
use fed_journal::EduFault;
use fed_outbox::Settlement;
use fed_room_contract::{Receipt, Refusal};
use thiserror::Error;

/// Why an event is not sent.
#[derive(Clone, Copy, Debug, PartialEq, Eq, Error)]
pub enum SendRefusal {
    /// No room of this id stands on the server.
    #[error("unknown room")]
    UnknownRoom,
    /// The room makes no event of the draft.
    #[error("{0}")]
    NotMade(Refusal),
    /// The journal has no place for the event and for the closings of all its destinations.
    #[error("limit")]
    Limit,
}

/// Why an ephemeral data unit is not sent.
#[derive(Clone, Copy, Debug, PartialEq, Eq, Error)]
pub enum EduRefusal {
    /// It is none that may be offered.
    #[error("{0}")]
    NotEdu(EduFault),
    /// The journal has no place for it and for the closings of all its destinations.
    #[error("limit")]
    Limit,
}

/// What a collected parcel held.
#[derive(Clone, Copy, Debug, PartialEq, Eq)]
pub enum Collected {
    Event,
    Edu,
    End,
}

/// What a step answered.
#[derive(Debug, PartialEq, Eq, Drop)]
pub enum Outcome {
    /// Memory ran out. Nothing changed, but that the room of an `Apply` may have received the event and stored some that waited, and that a
    /// `Calm` is made up to the step that was refused.
    NoMemory,
    /// A place in the step is not that of a listed server, or the same server is named on both sides.
    NoSuchServer,
    /// The event has this number among the events of the journal, and went to these destinations.
    Sent {
        number: u64,
        dests: ServerSet,
    },
    /// No event was sent.
    NotSent(SendRefusal),
    /// The ephemeral data unit went to these destinations.
    EduSent {
        dests: ServerSet,
    },
    /// No ephemeral data unit was sent.
    EduNotSent(EduRefusal),
    /// The outbox was open, and is closed.
    Closed,
    /// The outbox was closed before.
    WasClosed,
    /// The journal has no place for the closing.
    NotClosed,
    /// A parcel was collected.
    Collected(Collected),
    /// No parcel waits.
    NothingCollected,
    /// The transaction of this number has so many PDUs and EDUs.
    Cut {
        number: u64,
        pdus: usize,
        edus: usize,
    },
    /// A transaction is unanswered, or nothing waits.
    NoCut,
    /// The unanswered transaction is due again at this moment.
    Due {
        at_ms: u64,
    },
    /// No transaction is unanswered.
    NotFailed,
    /// The request is the packet of this number.
    Posted {
        packet: u64,
    },
    /// No transaction is unanswered.
    NothingToPost,
    /// The unanswered transaction is due at this moment only.
    NotDue {
        at_ms: u64,
    },
    /// The answer is the packet of this number, with this status.
    Answered {
        packet: u64,
        status: u16,
    },
    /// No packet of this number holds a request.
    NoSuchRequest,
    /// What the answer made of its transaction.
    Settled(Settlement),
    /// No packet of this number holds an answer.
    NoSuchAnswer,
    /// What became of the event, and how many events that waited were stored after it.
    Applied {
        receipt: Receipt,
        more: usize,
    },
    /// No event waits in front of the room, or the server has no such room.
    NothingApplied,
    /// The moment.
    Now {
        at_ms: u64,
    },
    /// The moment would pass the greatest one.
    TooLate,
    /// How many PDUs and EDUs the server took from the origin, and how many of them the origin counts as delivered.
    Shown {
        taken: u64,
        taken_edus: u64,
        acked: u64,
        acked_edus: u64,
    },
    /// The rounds ended at this moment.
    Calm {
        at_ms: u64,
    },
}
