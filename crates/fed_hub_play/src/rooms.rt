// What the thread of a room does.
use crate::cast::Cast;
use crate::dice::Dice;
use crate::order::{Desk, Order};
use crate::texts::ran_word;
use fed_event::StandIn;
use fed_hub::{Hub, Naming, Ran, RoomToken, ServingNaming};
use std::sync::Wait;

// How often a thread is called again at most before it counts as one that does not end.
const CALLS: usize = 100_000;

/// Does what is asked until it is to leave.
pub(crate) fn room<N: Naming + ServingNaming, R: Wait>(
    cast: &Cast<R>,
    hub: &Hub<N, StandIn>,
    desk: &Desk,
    token: &mut RoomToken<N>,
) {
    let (rt, alloc) = (&cast.rt, cast.alloc);
    for order in desk.orders.iter(rt) {
        match order {
            Order::Leave => return,
            Order::Store { turns } => {
                desk.tell_word(rt, alloc, ran_word(hub.run_room(rt, alloc, token, turns)));
            }
            Order::StoreAll { seed } => {
                desk.tell_word(rt, alloc, ran_word(store(cast, hub, token, seed)));
            }
            _ => desk.tell_word(rt, alloc, "not for a room"),
        }
    }
}

// Makes a few turns at a time, by a seed, until the room is drained.
fn store<N: Naming + ServingNaming, R: Wait>(
    cast: &Cast<R>,
    hub: &Hub<N, StandIn>,
    token: &mut RoomToken<N>,
    seed: u64,
) -> Ran {
    let mut dice = Dice::new(seed, 9);
    for _ in 0..CALLS {
        let turns = dice.throw() % 9;
        let ran = hub.run_room(&cast.rt, cast.alloc, token, turns);
        if ran == Ran::Drained {
            return ran;
        }
    }
    Ran::TurnsSpent
}
