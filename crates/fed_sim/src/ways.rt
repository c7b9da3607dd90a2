// What a server does on the way to one destination.
ghost use Rattle.std.specs.Prelude.{◌≡◌, ◌≤◌, OnErr, IfOk};
ghost use Rattle.fed_sim.specs.Ways.{on_way, collecting, cutting, failing, settling};

use crate::outcome::Outcome;
use crate::server::Server;
use crate::way::Cut;
use fed_dest::ServerIndex;
use fed_json::NoMemory;

impl Server {
    ghost use Rattle.fed_sim.specs.ServerParts.{server_of};

    /// The first parcel for a destination goes into its outbox. Nothing changes where memory runs out.
    pub(crate) fn collect(&mut self, dest: ServerIndex) -> Result<Outcome, NoMemory>
        ensures collected { IfOk result (λ told. (told, server_of self.new) ≡ on_way dest collecting (server_of self.old)) }
        ensures err { OnErr result (server_of self.new ≡ server_of self.old) }
    {
        if dest == self.own {
            return Ok(Outcome::NoSuchServer);
        }
        let Some(way) = self.ways.get_mut(dest.place()) else {
            return Ok(Outcome::NoSuchServer);
        };
        match way.collect()? {
            Some(kind) => Ok(Outcome::Collected(kind)),
            None => Ok(Outcome::NothingCollected),
        }
    }

    /// Makes the next transaction for a destination.
    pub(crate) fn cut(&mut self, dest: ServerIndex, now: u64) -> Outcome
        requires { now ≤ 9007199254740991 }
        ensures { (result, server_of self.new) ≡ on_way dest (cutting now) (server_of self.old) }
    {
        if dest == self.own {
            return Outcome::NoSuchServer;
        }
        let Some(way) = self.ways.get_mut(dest.place()) else {
            return Outcome::NoSuchServer;
        };
        match way.cut(now) {
            Some(Cut { number, pdus, edus }) => Outcome::Cut { number, pdus, edus },
            None => Outcome::NoCut,
        }
    }

    /// The sending of the unanswered transaction for a destination has failed.
    pub(crate) fn failed(&mut self, dest: ServerIndex, now: u64) -> Outcome
        requires { now ≤ 9007199254740991 }
        ensures { (result, server_of self.new) ≡ on_way dest (failing now) (server_of self.old) }
    {
        if dest == self.own {
            return Outcome::NoSuchServer;
        }
        let Some(way) = self.ways.get_mut(dest.place()) else {
            return Outcome::NoSuchServer;
        };
        match way.failed(now) {
            Some(at_ms) => Outcome::Due { at_ms },
            None => Outcome::NotFailed,
        }
    }

    /// A transaction for a destination was answered with this status, or with what is no answer.
    pub(crate) fn settle(
        &mut self,
        dest: ServerIndex,
        number: u64,
        status: Option<u16>,
        now: u64,
    ) -> Outcome
        requires { now ≤ 9007199254740991 }
        ensures { (result, server_of self.new) ≡ on_way dest (settling number status now) (server_of self.old) }
    {
        if dest == self.own {
            return Outcome::NoSuchServer;
        }
        let Some(way) = self.ways.get_mut(dest.place()) else {
            return Outcome::NoSuchServer;
        };
        Outcome::Settled(way.settle(number, status, now))
    }
}
