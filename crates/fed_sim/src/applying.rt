// What is taken for a room gets into it.
ghost use Rattle.std.specs.Prelude.{OnErr, IfOk, map, string_bytes};
ghost use Rattle.fed_sim.specs.Applying.{IsAppliedAt, IsAppliedInPart, IsGivenTo, IsGivenInPart};

use crate::outcome::Outcome;
use crate::server::Server;
use crate::taking::place_of;
use fed_json::NoMemory;
use fed_room_contract::Applied;
use std::alloc::Global;

impl Server {
    ghost use Rattle.fed_sim.specs.ServerParts.{server_of};

    /// The first event in front of a room is given to it.
    pub(crate) fn apply(
        &mut self,
        alloc: Global,
        known: &[String],
        room: &str,
    ) -> Result<Outcome, NoMemory>
        ensures given { IfOk result (λ outcome. IsGivenTo (map string_bytes known.now) room.now (server_of self.old) outcome (server_of self.new)) }
        ensures err { OnErr result (IsGivenInPart (map string_bytes known.now) room.now (server_of self.old) (server_of self.new)) }
    {
        match place_of(known, room) {
            Some(place) => self.apply_at(alloc, place),
            None => Ok(Outcome::NothingApplied),
        }
    }

    /// The first event in front of the room at this place is given to it. Nothing changes where memory runs out, but that the room may have
    /// received the event and stored some that waited.
    pub(crate) fn apply_at(&mut self, alloc: Global, place: usize) -> Result<Outcome, NoMemory>
        ensures applied { IfOk result (λ outcome. IsAppliedAt place (server_of self.old) outcome (server_of self.new)) }
        ensures err { OnErr result (IsAppliedInPart place (server_of self.old) (server_of self.new)) }
    {
        let Some(hosted) = self.rooms.get_mut(place) else {
            return Ok(Outcome::NothingApplied);
        };
        match hosted.apply(alloc)? {
            Some(Applied { receipt, more }) => Ok(Outcome::Applied { receipt, more }),
            None => Ok(Outcome::NothingApplied),
        }
    }
}
