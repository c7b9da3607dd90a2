// The server that takes what is sent.
use crate::counting::texts_left;
use crate::course::Course;
use crate::faults::LoopFault;
use crate::sending::shut_down;
use crate::setups::{SERVERS, setup};
use fed_event::StandIn;
use fed_hub::{
    ClientToken, Crew, FinishFault, Hub, Muster, Naming, Outcome, Ran, Report, RoomToken, Seat,
    SenderToken, ServeToken, ServingNaming, Tokens, run_crew,
};
use fed_tcp::{Connector, PATIENCE, serve};
use std::alloc::Global;
use std::sync::Wait;
use std::thread::Threads;
use std::time::Clock;

/// How many threads b has: one that leads, one that would deliver to a, one for the room, and two that serve, one for each listed server.
const THREADS: u32 = 5;

/// The threads of b. `R` is the runtime, or a reference to it.
#[derive(Drop)]
struct Taker<'a, R> {
    rt: R,
    alloc: Global,
    course: &'a Course,
    muster: Muster,
}

/// Runs b until its door is closed, and tells how many events it took from a.
pub(crate) fn take_all<R>(rt: R, alloc: Global, course: &Course) -> Result<u64, LoopFault>
where
    R: Threads + Wait + Clock + Connector + Copy + Sync,
{
    let taken = run(rt, alloc, course);
    if let Err(fault) = taken {
        course.faults.note(&rt, fault);
    }
    taken
}

fn run<R>(rt: R, alloc: Global, course: &Course) -> Result<u64, LoopFault>
where
    R: Threads + Wait + Clock + Connector + Copy + Sync,
{
    if !course.muster.begins(&rt) {
        return Err(LoopFault::NoThreads);
    }
    let taker = Taker {
        rt,
        alloc,
        course,
        muster: Muster::new(THREADS),
    };
    run_crew(&rt, alloc, setup(alloc, 1)?, 0, 0, taker)?
}

impl<R: Wait + Clock + Connector + Copy> Crew<StandIn> for Taker<'_, R> {
    // Nobody reads the board.
    fn lead<N: Naming + ServingNaming>(&self, _hub: &Hub<N, StandIn>, _readers: &mut [Seat<N>]) {
        self.muster.begins(&self.rt);
    }

    // It has no client.
    fn client<N: Naming + ServingNaming>(
        &self,
        _hub: &Hub<N, StandIn>,
        _place: usize,
        _token: &mut ClientToken<N>,
    ) {}

    // Nothing is sent here.
    fn sender<N: Naming + ServingNaming>(
        &self,
        _hub: &Hub<N, StandIn>,
        _token: &mut SenderToken<N>,
    ) {
        self.muster.begins(&self.rt);
    }

    fn room<N: Naming + ServingNaming>(&self, hub: &Hub<N, StandIn>, token: &mut RoomToken<N>) {
        if !self.muster.begins(&self.rt) {
            return;
        }
        if hub.run_room(&self.rt, self.alloc, token, u64::MAX) == Ran::Memory {
            self.course.faults.note(&self.rt, LoopFault::Memory);
        }
    }

    // Serves until the door is closed, and tells the next thread that serves. All has come then, so that the room's thread may end.
    fn server<N: Naming + ServingNaming>(
        &self,
        hub: &Hub<N, StandIn>,
        _place: usize,
        token: &mut ServeToken<N>,
    ) {
        if !self.muster.begins(&self.rt) {
            return;
        }
        let door = &self.course.door;
        if let Err(error) = serve(&self.rt, self.alloc, hub, token, door, PATIENCE) {
            self.course.faults.note(&self.rt, LoopFault::from(error));
        }
        door.close(&self.rt);
        shut_down(&self.rt, hub);
    }
}

impl<R: Drop> Outcome<StandIn> for Taker<'_, R> {
    type Out = Result<u64, LoopFault>;

    fn runs_on<N: Naming + ServingNaming>(
        &mut self,
        _alloc: Global,
        _hub: &Hub<N, StandIn>,
        _tokens: &mut Tokens<N>,
    ) -> bool {
        false
    }

    fn end<N: Naming + ServingNaming>(
        self,
        _alloc: Global,
        ended: Result<Report<N>, FinishFault>,
    ) -> Result<u64, LoopFault> {
        if !self.muster.is_complete() {
            return Err(LoopFault::NoThreads);
        }
        Ok(texts_left(ended?.inbox.inbox().taken(SERVERS[0])))
    }
}
