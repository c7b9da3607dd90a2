// What the thread does that sends to one destination.
use crate::carrier::PostCarrier;
use crate::cast::Cast;
use crate::dice::Dice;
use crate::gate::NotingGate;
use crate::order::{Desk, Order};
use crate::texts::{collected_text, collected_word, ran_word};
use fed_event::StandIn;
use fed_hub::{Collected, Hub, Naming, Ran, SenderToken, ServingNaming};
use std::sync::{Arc, Wait};
use std::time::Clock;

// How often a thread is called again at most before it counts as one that does not end.
const CALLS: usize = 100_000;

/// Does what is asked until it is to leave.
pub(crate) fn sender<N: Naming + ServingNaming, R: Wait + Clock + Copy>(
    cast: &Cast<R>,
    hub: &Hub<N, StandIn>,
    desk: &Desk,
    token: &mut SenderToken<N>,
) {
    let (rt, alloc) = (&cast.rt, cast.alloc);
    let (Ok(posts), Ok(counts)) = (
        Arc::try_clone(&cast.hall.posts),
        Arc::try_clone(&cast.counts),
    ) else {
        return;
    };
    let mut carrier = PostCarrier::new(cast.rt, alloc, posts, counts);
    let mut gate = NotingGate::new(alloc);
    for order in desk.orders.iter(rt) {
        match order {
            Order::Leave => return,
            Order::Collect { most, waits } => {
                let (moved, told) = collect(rt, hub, token, most, waits);
                desk.tell(rt, alloc, collected_text(alloc, moved, told));
            }
            Order::Drain => {
                let (_, told) = collect(rt, hub, token, u64::MAX, false);
                desk.tell_word(rt, alloc, collected_word(told));
            }
            Order::Turns { turns } => {
                let ran = hub.run_sender(rt, alloc, token, &mut carrier, &mut gate, turns);
                desk.tell_word(rt, alloc, ran_word(ran));
            }
            Order::Deliver { seed } => {
                let ran = deliver(cast, hub, token, &mut carrier, &mut gate, seed);
                desk.tell_word(rt, alloc, ran_word(ran));
            }
            Order::Carry(exchanges) => {
                carrier.plan(exchanges);
                desk.tell_word(rt, alloc, "planned");
            }
            Order::TellBrought => desk.tell(rt, alloc, Ok(carrier.targets(alloc))),
            Order::TellAsked => desk.tell(rt, alloc, Ok(gate.notes())),
            _ => desk.tell_word(rt, alloc, "not for a sender"),
        }
    }
}

// How many parcels are moved, so many at most, and what was told last.
fn collect<N: Naming + ServingNaming, R: Wait + Clock>(
    rt: &R,
    hub: &Hub<N, StandIn>,
    token: &mut SenderToken<N>,
    most: u64,
    waits: bool,
) -> (u64, Collected) {
    for moved in 0..most {
        let told = hub.collect(rt, token, waits);
        if told != Collected::Moved {
            return (moved, told);
        }
    }
    (most, Collected::Moved)
}

// Makes a few turns at a time, by a seed, until the destination is drained.
fn deliver<N: Naming + ServingNaming, R: Wait + Clock>(
    cast: &Cast<R>,
    hub: &Hub<N, StandIn>,
    token: &mut SenderToken<N>,
    carrier: &mut PostCarrier<R>,
    gate: &mut NotingGate,
    seed: u64,
) -> Ran {
    let mut dice = Dice::new(seed, token.dest().place() as u64);
    for _ in 0..CALLS {
        let turns = dice.throw() % 9;
        let ran = hub.run_sender(&cast.rt, cast.alloc, token, carrier, gate, turns);
        if ran == Ran::Drained {
            return ran;
        }
    }
    Ran::TurnsSpent
}
