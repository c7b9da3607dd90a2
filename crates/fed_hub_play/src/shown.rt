// What a hub shows to those who only read.
use fed_event::StandIn;
use fed_hub::{Hub, KeptRoom, Naming, ServingNaming};
use fed_room_contract::RoomEngine;
use std::alloc::{AllocError, Global};
use std::sync::{Mutex, Wait};

// Of a room: how many events are stored, wait and were dropped, how many forward extremities there are, and how many inputs it had.
#[derive(Clone, Copy)]
struct RoomShown {
    stored: usize,
    waiting: usize,
    dropped: u64,
    extremities: usize,
    inputs: usize,
}

// Of the inbox: how many requests it answered, and how many events it took from an origin.
#[derive(Clone, Copy)]
struct InboxShown {
    requests: usize,
    taken: usize,
}

/// What a room of a hub, and its inbox of an origin, show.
pub(crate) fn shown<N: Naming + ServingNaming, R: Wait>(
    rt: &R,
    alloc: Global,
    hub: &Hub<N, StandIn>,
    room: &str,
    origin: &str,
) -> Result<String, AllocError> {
    let Some(room) = hub.room(room) else {
        return String::from_str(alloc, "unknown room");
    };
    let room = room_shown(rt, room);
    let inbox = inbox_shown(rt, hub, origin);
    format!(in alloc;
        "stored {}, waiting {}, dropped {}, extremities {}, inputs {}, requests {}, taken {}",
        room.stored,
        room.waiting,
        room.dropped,
        room.extremities,
        room.inputs,
        inbox.requests,
        inbox.taken
    )
}

fn room_shown<R: Wait>(rt: &R, room: &Mutex<KeptRoom>) -> RoomShown {
    let kept = room.lock(rt);
    let room = kept.room();
    RoomShown {
        stored: room.graph().len(),
        waiting: room.waiting().len(),
        dropped: room.dropped(),
        extremities: room.extremities().len(),
        inputs: kept.inputs().len(),
    }
}

fn inbox_shown<N: Naming + ServingNaming, R: Wait>(
    rt: &R,
    hub: &Hub<N, StandIn>,
    origin: &str,
) -> InboxShown {
    let kept = hub.inbox().lock(rt);
    let mut taken = 0usize;
    for _ in kept.inbox().taken(origin) {
        taken = taken.saturating_add(1);
    }
    InboxShown {
        requests: kept.points().len(),
        taken,
    }
}
