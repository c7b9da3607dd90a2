// The steps of a world.
use fed_dest::{ServerIndex, ServerSet};
use fed_json::Json;
use fed_room_contract::Draft;

/// A step of a world.
///
/// A server is named by its place in the list of servers, and a packet by its number, from 1; both may be such as there are none of.
#[derive(Drop)]
pub enum Step {
    /// A user of the server sends an event. The moment of the draft is not looked at: the event is dated with the present one.
    Offer {
        server: ServerIndex,
        draft: Draft,
    },
    /// The server sends an ephemeral data unit to those of these servers that are listed and are not itself.
    OfferEdu {
        server: ServerIndex,
        edu: Json,
        dests: ServerSet,
    },
    /// The server closes its outbox for a destination.
    Close {
        server: ServerIndex,
        dest: ServerIndex,
    },
    /// The first parcel of the queue for the destination goes into the outbox for it.
    Collect {
        server: ServerIndex,
        dest: ServerIndex,
    },
    /// A transaction for the destination is made, where none waits for its answer.
    Cut {
        server: ServerIndex,
        dest: ServerIndex,
    },
    /// The sending of the unanswered transaction for the destination has failed.
    Failed {
        server: ServerIndex,
        dest: ServerIndex,
    },
    /// The request of the unanswered transaction is sent, as a packet, where it is due.
    Post {
        server: ServerIndex,
        dest: ServerIndex,
    },
    /// The request of this packet reaches its server.
    Take {
        packet: u64,
    },
    /// The answer of this packet reaches its server.
    Settle {
        packet: u64,
    },
    /// The first event that waits in front of the room at the server is given to the room.
    Apply {
        server: ServerIndex,
        room: String,
    },
    /// The moment rises by so many milliseconds.
    Tick {
        ms: u64,
    },
    /// Tells what the server took from the origin, and what the origin counts as delivered to it.
    Show {
        server: ServerIndex,
        origin: ServerIndex,
    },
    /// So many rounds in which nothing is lost.
    Calm {
        rounds: u64,
    },
}
