// What each thread of a hub does, by the orders that it gets.
use crate::clients::client;
use crate::counts::Counts;
use crate::hall::Hall;
use crate::leading::lead;
use crate::rooms::room;
use crate::senders::sender;
use crate::serving::server;
use crate::setups::Scene;
use fed_event::StandIn;
use fed_hub::{
    ClientToken, Crew, Hub, Naming, RoomToken, Seat, SenderToken, ServeToken, ServingNaming,
};
use std::alloc::Global;
use std::sync::{Arc, Wait};
use std::time::Clock;

/// What the threads of a server share beside its hub: where each gets its orders, and the counts by which they wait for one another; and what is told
/// of the hub when they have returned.
#[derive(Drop)]
pub(crate) struct Cast<R: Wait> {
    pub(crate) rt: R,
    pub(crate) alloc: Global,
    pub(crate) scene: Arc<Scene>,
    pub(crate) hall: Hall,
    pub(crate) counts: Arc<Counts>,
    /// What the clients were told, in one line.
    pub(crate) told: String,
    pub(crate) is_given_up: bool,
}

impl<R: Wait + Clock + Copy> Crew<StandIn> for Cast<R> {
    fn lead<N: Naming + ServingNaming>(&self, hub: &Hub<N, StandIn>, readers: &mut [Seat<N>]) {
        lead(self, hub, &self.hall.lead, readers);
    }

    fn client<N: Naming + ServingNaming>(
        &self,
        hub: &Hub<N, StandIn>,
        place: usize,
        token: &mut ClientToken<N>,
    ) {
        if let Some(desk) = self.hall.clients.get(place) {
            client(self, hub, desk, token);
        }
    }

    fn sender<N: Naming + ServingNaming>(&self, hub: &Hub<N, StandIn>, token: &mut SenderToken<N>) {
        if let Some(desk) = self.hall.senders.get(token.dest().place()) {
            sender(self, hub, desk, token);
        }
    }

    fn room<N: Naming + ServingNaming>(&self, hub: &Hub<N, StandIn>, token: &mut RoomToken<N>) {
        if let Some(desk) = self.hall.rooms.get(token.room()) {
            room(self, hub, desk, token);
        }
    }

    fn server<N: Naming + ServingNaming>(
        &self,
        hub: &Hub<N, StandIn>,
        place: usize,
        token: &mut ServeToken<N>,
    ) {
        if let Some(desk) = self.hall.servers.get(place) {
            server(self, hub, desk, token);
        }
    }
}
