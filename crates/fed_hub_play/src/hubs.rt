// The hub of one server, from its beginning to its end.
use crate::cast::Cast;
use crate::counts::Counts;
use crate::hall::Hall;
use crate::order::Stop;
use crate::reports::report_text;
use crate::setups::Scene;
use crate::texts::finish_fault_text;
use fed_event::StandIn;
use fed_hub::{
    ClientToken, FinishFault, Hub, Naming, Outcome, Report, ServingNaming, Tokens, run_crew,
};
use std::alloc::{AllocError, Global};
use std::mem;
use std::sync::{Arc, Wait};
use std::thread::Threads;
use std::time::Clock;

/// What the threads of one server share, and where the server stands.
#[derive(Drop)]
pub(crate) struct Stage {
    pub(crate) scene: Arc<Scene>,
    pub(crate) counts: Arc<Counts>,
    pub(crate) hall: Option<Hall>,
    pub(crate) place: usize,
}

/// Runs the hub of a server until it has ended, or is given up. Where it can't be made, nobody is at its desks.
pub(crate) fn run_hub<R: Threads + Wait + Clock + Copy + Sync>(
    rt: R,
    alloc: Global,
    stage: &mut Stage,
) {
    let (Ok(scene), Ok(counts), Some(hall)) = (
        Arc::try_clone(&stage.scene),
        Arc::try_clone(&stage.counts),
        stage.hall.take(),
    ) else {
        return;
    };
    let Some(setup) = scene.setup(alloc, stage.place) else {
        return;
    };
    let clients = hall.clients.len() as u64;
    let cast = Cast {
        rt,
        alloc,
        scene,
        hall,
        counts,
        told: String::new(alloc),
        is_given_up: false,
    };
    let _ = run_crew(&rt, alloc, setup, clients, 1, cast);
}

impl<R: Wait + Drop> Outcome<StandIn> for Cast<R> {
    type Out = ();

    fn runs_on<N: Naming + ServingNaming>(
        &mut self,
        alloc: Global,
        hub: &Hub<N, StandIn>,
        tokens: &mut Tokens<N>,
    ) -> bool {
        let stop = self.hall.stop.lock(&self.rt).take();
        match stop {
            Some(Stop::Finish) => {
                self.told = told_text(alloc, &tokens.clients).unwrap_or_else(|_| String::new(
                    alloc,
                ));
                return false;
            }
            Some(Stop::GiveUp) | None => {
                self.is_given_up = true;
                return false;
            }
            Some(Stop::DropClient) => drop(tokens.clients.pop()),
            Some(Stop::DropSender(place)) => {
                tokens.senders.retain(|token| token.dest().place() != place);
            }
            Some(Stop::SwapRooms(id, other)) => swap(&self.rt, hub, &id, &other),
        }
        self.hall.lead.tell_word(&self.rt, alloc, "done");
        true
    }

    fn goes_on(&mut self, alloc: Global, fault: FinishFault) -> bool {
        self.hall
            .lead
            .tell(&self.rt, alloc, finish_fault_text(alloc, fault));
        !self.is_given_up
    }

    fn end<N: Naming + ServingNaming>(self, alloc: Global, ended: Result<Report<N>, FinishFault>) {
        if let Ok(report) = ended {
            let text = report_text(alloc, &self.scene, &self.told, &report);
            self.hall.lead.tell(&self.rt, alloc, text);
        }
    }
}

// Puts each of two rooms under the other's lock.
fn swap<N: Naming + ServingNaming, R: Wait>(rt: &R, hub: &Hub<N, StandIn>, id: &str, other: &str) {
    if id == other {
        return;
    }
    if let (Some(room), Some(other)) = (hub.room(id), hub.room(other)) {
        mem::swap(&mut *room.lock(rt), &mut *other.lock(rt));
    }
}

// How many events all clients were told of, and whether their numbers are those from 1 on, each once.
fn told_text<N: Naming>(alloc: Global, clients: &[ClientToken<N>]) -> Result<String, AllocError> {
    let mut numbers = Vec::new(alloc);
    for client in clients {
        for event in client.told().events() {
            numbers.push(event.number)?;
        }
    }
    numbers.sort_unstable();
    let count = numbers.len();
    let is_from_one = numbers.iter().enumerate().all(|(place, number)| *number
        == (place as u64).saturating_add(1));
    let order = if is_from_one {
        "each number once"
    } else {
        "not each number once"
    };
    format!(in alloc; "{count} events, {order}")
}
