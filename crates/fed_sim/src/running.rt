// A world after a list of steps.
ghost use Rattle.std.specs.Prelude.{◌≡◌, ℕ, true, false, Some, Err, IfOk, IfErr, OnOk, length, map, slice_get, string_bytes};
ghost use Rattle.fed_sim.specs.declared.server.Server.{Server};
ghost use Rattle.fed_sim.specs.declared.setup.RoomSetup.{RoomSetup};
ghost use Rattle.fed_sim.specs.declared.setup.Setup.{Setup};
ghost use Rattle.fed_sim.specs.declared.setup.SimFault.TheVariants.{BadSetup};
ghost use Rattle.fed_sim.specs.CalmSteps.{CalmStepsDeliver};
ghost use Rattle.fed_sim.specs.Headline.{Headline};
ghost use Rattle.fed_sim.specs.Steps.{Ran};
ghost use Rattle.fed_sim.specs.Running.{Begins, IsBeginning, HasNoStart, CannotBegin};
ghost use Rattle.fed_sim.specs.ServerParts.{server_of};
ghost use Rattle.fed_sim.specs.Setup.{is_setup};
ghost use Rattle.fed_sim.specs.WorldParts.{world_of};

use crate::laws::{calm_delivers, runs_deliver};
use crate::outcome::Outcome;
use crate::server::{Server, keys_of};
use crate::setup::{RoomSetup, Setup, SimFault};
use crate::setup_check::{is_setup, list_of};
use crate::starting::{hosted_rooms, starts};
use crate::step::Step;
use crate::world::World;
use fed_dest::{List, ServerIndex, ServerName};
use fed_event::StandIn;
use fed_json::NoMemory;
use std::alloc::Global;

/// The world that begins with a setup, after these steps. A step that is refused stands as refused among the `replies`.
///
/// What a server of that world took of another one is a prefix, in order and each once, of what that one addressed to it; what counts as
/// delivered was taken. A request that reaches its server on the way there is the text of what its origin's outbox holds as unanswered and is
/// taken whole, where its transaction was not answered with 200 before, and else gets that answer again; or memory runs out, it is answered
/// with 500, and nothing is taken. Each event of a journal is stored in a room of its server, and its destinations are just the other listed
/// servers that are joined in the state before it in that room's graph (Matrix, Server-Server API, "Transactions", "PDUs").
///
/// Each step of calm among them brings all that is addressed, as `calm` says.
///
/// # Errors
///
/// `BadSetup` where no world begins with the setup, which is told without memory where its names make no list or one of its rooms has a
/// fault; `Memory` where memory for its beginning ran out.
pub fn run(alloc: Global, setup: &Setup, steps: &[Step]) -> Result<World, SimFault>
    ensures headline { IfOk result (λ world. Headline setup.now steps.now world.replies.items (world_of world)) }
    ensures calm { OnOk result (CalmStepsDeliver setup.now) }
    ensures good { OnOk result (is_setup setup.now ≡ true) }
    ensures bad { is_setup setup.now ≡ false → result ≡ Err BadSetup }
    ensures bad_only { IfErr result (λ fault. fault ≡ BadSetup → CannotBegin setup.now) }
{
    calm_delivers();
    let world = begin(alloc, setup)?;
    Ok(run_on(alloc, world, steps, &mut Silent)?)
}

/// Is told what each step of a run came to, as soon as it is made.
pub trait Listener {
    /// Why it can be told no more.
    type Fault: From<NoMemory> + Drop;

    /// What a step came to. The names of the servers stand in the order of their places.
    fn tell(&mut self, names: &[ServerName], outcome: &Outcome) -> Result<(), Self::Fault>;
}

// Needs no telling.
#[derive(Drop)]
struct Silent;

impl Listener for Silent {
    type Fault = NoMemory;

    fn tell(&mut self, _names: &[ServerName], _outcome: &Outcome) -> Result<(), NoMemory> {
        Ok(())
    }
}

/// A world after these steps more, each of which the listener is told of when it is made. Their answers are the `replies` of the world then. Of a
/// world that has just begun it is what `run` says.
///
/// # Errors
///
/// That of the listener, which is told of no later step then, and none is made; or want of memory for the replies, before any step.
pub fn run_on<L: Listener>(
    alloc: Global,
    mut world: World,
    steps: &[Step],
    listener: &mut L,
) -> Result<World, L::Fault>
    ensures ran { IfOk result (λ new. Ran (world_of world) steps.now new.replies.items (world_of new)) }
    ensures headline { IfOk result (λ new. (setup : Setup) → Begins setup (world_of world) → Headline setup steps.now new.replies.items (world_of new)) }
{
    runs_deliver();
    let mut replies = Vec::with_capacity(alloc, steps.len())?;
    for step in steps {
        let outcome = world.step(alloc, step);
        listener.tell(world.names(), &outcome)?;
        // There is room for it.
        replies.push(outcome).unwrap();
    }
    world.replies = replies;
    Ok(world)
}

/// The world that begins with a setup, before any step.
///
/// # Errors
///
/// Those of `run`.
pub fn begin(alloc: Global, setup: &Setup) -> Result<World, SimFault>
    ensures begins { IfOk result (λ world. Begins setup.now (world_of world)) }
    ensures good { OnOk result (is_setup setup.now ≡ true) }
    ensures bad { is_setup setup.now ≡ false → result ≡ Err BadSetup }
    ensures bad_only { IfErr result (λ fault. fault ≡ BadSetup → CannotBegin setup.now) }
{
    if !is_setup(setup) {
        return Err(SimFault::BadSetup);
    }
    let list = list_of(alloc, &setup.servers)?;
    let known = ids_of(alloc, &setup.rooms)?;
    let servers = servers(alloc, &list, &known, &setup.rooms)?;
    Ok(World {
        list,
        known,
        epoch: setup.epoch,
        servers,
        packets: Vec::new(alloc),
        now: 0,
        replies: Vec::new(alloc),
    })
}

// The ids of the rooms.
fn ids_of(alloc: Global, rooms: &[RoomSetup]) -> Result<Vec<String>, NoMemory>
    ensures { IfOk result (λ ids. map string_bytes ids.items ≡ map (λ room. string_bytes room.id) rooms.now) }
{
    let mut ids = Vec::with_capacity(alloc, rooms.len())?;
    for room in rooms {
        ids.push(String::from_str(alloc, &room.id)?)?;
    }
    Ok(ids)
}

// A server of each name.
fn servers(
    alloc: Global,
    list: &List,
    known: &[String],
    rooms: &[RoomSetup],
) -> Result<Vec<Server>, SimFault>
    ensures count { IfOk result (λ servers. length servers.items ≡ length list.now) }
    ensures each { IfOk result (λ servers. (k : ℕ) (s : Server) → slice_get servers.items k ≡ Some s → IsBeginning list.now (map string_bytes known.now) rooms.now k (server_of s)) }
    ensures bad { IfErr result (λ fault. fault ≡ BadSetup → HasNoStart list.now rooms.now) }
{
    let keys = all_keys(alloc, list)?;
    let starts = starts(alloc, rooms, &keys)?;
    let count = list.len();
    let mut servers = Vec::with_capacity(alloc, count)?;
    for place in 0..count {
        let own = ServerIndex::new(place);
        let hosted = hosted_rooms(alloc, list.name(own), &starts)?;
        servers.push(Server::new(alloc, own, list, known, hosted)?)?;
    }
    Ok(servers)
}

// The keys of all servers.
fn all_keys(alloc: Global, list: &List) -> Result<Vec<StandIn>, NoMemory>
    ensures { IfOk result (λ keys. keys.items ≡ list.now) }
{
    let mut keys = Vec::with_capacity(alloc, list.len())?;
    for name in list.names() {
        keys.push(keys_of(alloc, name.as_str())?)?;
    }
    Ok(keys)
}
