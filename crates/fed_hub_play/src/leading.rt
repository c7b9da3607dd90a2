// What the thread does that leads a hub: it asks what needs no token, and looks at the board.
use crate::cast::Cast;
use crate::order::{Desk, Order};
use crate::shown::shown;
use crate::texts::close_fault_text;
use fed_event::StandIn;
use fed_hub::{Hub, Naming, Seat, ServingNaming};
use fed_room_contract::RoomEngine;
use std::alloc::{AllocError, Global};
use std::sync::Wait;
use std::thread;
use std::time::{Clock, Duration};

// How often the lock of the inbox is looked at, at most, and after how many microseconds again.
const MOST_LOOKS: u64 = 100_000_000;

const BETWEEN: u64 = 50;

/// Does what is asked until it is to stop.
pub(crate) fn lead<N: Naming + ServingNaming, R: Wait + Clock>(
    cast: &Cast<R>,
    hub: &Hub<N, StandIn>,
    desk: &Desk,
    readers: &mut [Seat<N>],
) {
    for order in desk.orders.iter(&cast.rt) {
        let Some(told) = told_of(cast, hub, readers, order) else {
            return;
        };
        desk.tell(&cast.rt, cast.alloc, told);
    }
}

// What is told of an order; `None` where the thread is to stop.
fn told_of<N: Naming + ServingNaming, R: Wait + Clock>(
    cast: &Cast<R>,
    hub: &Hub<N, StandIn>,
    readers: &mut [Seat<N>],
    order: Order,
) -> Option<Result<String, AllocError>> {
    let (rt, alloc) = (&cast.rt, cast.alloc);
    match order {
        Order::Stop(stop) => {
            *cast.hall.stop.lock(rt) = Some(stop);
            None
        }
        Order::Begin => Some(String::from_str(alloc, "ready")),
        Order::Close { dest } => Some(close(rt, alloc, hub, &dest)),
        Order::ShutDown => Some(shut_down(rt, alloc, hub)),
        Order::Delivered { dest } => Some(delivered(alloc, hub, readers, &dest)),
        Order::CountStored { room, ids } => Some(stored(rt, alloc, hub, &room, &ids)),
        Order::Show { room, origin } => Some(shown(rt, alloc, hub, &room, &origin)),
        Order::Look { until } => Some(look(cast, hub, &until)),
        _ => Some(String::from_str(alloc, "not for a lead")),
    }
}

fn close<N: Naming + ServingNaming, R: Wait>(
    rt: &R,
    alloc: Global,
    hub: &Hub<N, StandIn>,
    dest: &str,
) -> Result<String, AllocError> {
    let Some(dest) = hub.other(dest) else {
        return String::from_str(alloc, "unknown server");
    };
    match hub.close_outbox(rt, dest) {
        Ok(true) => String::from_str(alloc, "closed"),
        Ok(false) => String::from_str(alloc, "was closed"),
        Err(fault) => close_fault_text(alloc, fault),
    }
}

fn shut_down<N: Naming + ServingNaming, R: Wait>(
    rt: &R,
    alloc: Global,
    hub: &Hub<N, StandIn>,
) -> Result<String, AllocError> {
    match hub.shut_down(rt) {
        Ok(()) => String::from_str(alloc, "shut down"),
        Err(fault) => close_fault_text(alloc, fault),
    }
}

fn delivered<N: Naming + ServingNaming>(
    alloc: Global,
    hub: &Hub<N, StandIn>,
    readers: &mut [Seat<N>],
    dest: &str,
) -> Result<String, AllocError> {
    let Some(dest) = hub.other(dest) else {
        return String::from_str(alloc, "unknown server");
    };
    let Some(seat) = readers.first_mut() else {
        return String::from_str(alloc, "no seat");
    };
    let count = hub.delivered(seat, dest);
    format!(in alloc; "delivered {count}")
}

// How many of these events a room has.
fn stored<N: Naming + ServingNaming, R: Wait>(
    rt: &R,
    alloc: Global,
    hub: &Hub<N, StandIn>,
    room: &str,
    ids: &[String],
) -> Result<String, AllocError> {
    let Some(room) = hub.room(room) else {
        return String::from_str(alloc, "unknown room");
    };
    let room = room.lock(rt);
    let graph = room.room().graph();
    let count = ids.iter().filter(|id| graph.contains(id)).count();
    let all = ids.len();
    format!(in alloc; "stored {count} of {all}")
}

// How often a thread had the lock of the inbox, of how often it was looked at until a count was raised.
fn look<N: Naming + ServingNaming, R: Wait + Clock>(
    cast: &Cast<R>,
    hub: &Hub<N, StandIn>,
    until: &str,
) -> Result<String, AllocError> {
    let mut held = 0u64;
    let mut looks = 0u64;
    for _ in 0..MOST_LOOKS {
        if hub.inbox().try_lock().is_none() {
            held = held.saturating_add(1);
        }
        looks = looks.saturating_add(1);
        if cast.counts.count(&cast.rt, until) > 0 {
            break;
        }
        thread::sleep(&cast.rt, Duration::from_micros(BETWEEN));
    }
    let alloc = cast.alloc;
    format!(in alloc; "held {held} of {looks}")
}
