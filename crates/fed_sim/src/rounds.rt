// Rounds in which nothing is lost.
ghost use Rattle.std.specs.Prelude.{◌≡◌, OnOk, OnErr, IfOk, false, length};
ghost use Rattle.fed_sim.specs.Calm.{CalmDelivers};
ghost use Rattle.fed_sim.specs.Rounds.{Times, ForEach, CollectsOne, Cuts, IsExchanged, IsCalmWay, GivesAll, BringsFrom, GivesRooms, IsRound, AreRounds, queue_at};
ghost use Rattle.fed_sim.specs.RoundsInPart.{TimesInPart, ForEachInPart, IsRefused, IsExchangedInPart, IsCalmWayInPart, BringsFromInPart, GivesAllInPart, GivesRoomsInPart, IsRoundInPart, AreRoundsInPart};
ghost use Rattle.fed_sim.specs.WorldParts.{world_of, replies_of};

use crate::laws::{calm_delivers, runs_deliver};
use crate::outcome::Outcome;
use crate::world::World;
use fed_dest::ServerIndex;
use fed_json::NoMemory;
use std::alloc::Global;

/// Makes so many rounds in which nothing is lost. In each of them, for each ordered pair of servers, by their names, all parcels are
/// collected and a transaction is made where none is unanswered; where one is, the moment rises to when it is due, and it is posted,
/// taken and settled, unless that moment is past the greatest. Then each server gives its rooms all that waits in front of them.
///
/// It ends with the first round that finds nothing to do: the world is then as after all of them.
///
/// Where the moment is an hour before the greatest at most and no inbox ran out of memory, so that none of the answers that were added is of status
/// 500, all that is addressed to a server is taken there after as many rounds as it takes, and counts as delivered: one for a transaction that is
/// unanswered, and then one for each 50 events and each 100 ephemeral data units, which go together (Matrix, Server-Server API, "Transactions").
///
/// # Errors
///
/// `NoMemory`; then what the rounds are made of was made in its order up to the step that was refused, and no more: the moment has risen to no later
/// one than that at which a transaction was due. The refused step left all as it was, but that a room may have received an event and stored some that
/// waited.
pub fn calm(alloc: Global, world: &mut World, rounds: u64) -> Result<(), NoMemory>
    ensures rounds { OnOk result (AreRounds rounds (world_of world.old) (world_of world.new)) }
    ensures delivered { OnOk result (CalmDelivers rounds (world_of world.old) (world_of world.new)) }
    ensures replies { replies_of world.new ≡ replies_of world.old }
    ensures err { OnErr result (AreRoundsInPart rounds (world_of world.old) (world_of world.new)) }
{
    calm_delivers();
    for _ in 0..rounds {
        if !calm_round(world, alloc)? {
            return Ok(());
        }
    }
    Ok(())
}

// One round; whether anything was done.
fn calm_round(world: &mut World, alloc: Global) -> Result<bool, NoMemory>
    ensures round { OnOk result (IsRound (world_of world.old) (world_of world.new)) }
    ensures idle { IfOk result (λ is_busy. is_busy ≡ false → world_of world.new ≡ world_of world.old) }
    ensures replies { replies_of world.new ≡ replies_of world.old }
    ensures err { OnErr result (IsRoundInPart (world_of world.old) (world_of world.new)) }
{
    let has_brought = bring_all(world, alloc)?;
    let has_given = give_all(world, alloc)?;
    Ok(has_brought | has_given)
}

// All servers bring what waits there; whether any did.
fn bring_all(world: &mut World, alloc: Global) -> Result<bool, NoMemory>
    ensures brought { OnOk result (ForEach BringsFrom (world_of world.old) (length (world_of world.old).names) (world_of world.new)) }
    ensures idle { IfOk result (λ is_busy. is_busy ≡ false → world_of world.new ≡ world_of world.old) }
    ensures replies { replies_of world.new ≡ replies_of world.old }
    ensures err { OnErr result (ForEachInPart BringsFrom BringsFromInPart (world_of world.old) (length (world_of world.old).names) (world_of world.new)) }
{
    let mut is_busy = false;
    for place in 0..world.list.len() {
        is_busy |= bring_from(world, alloc, ServerIndex::new(place))?;
    }
    Ok(is_busy)
}

// A server brings what waits there for each of the others; whether anything was done.
fn bring_from(world: &mut World, alloc: Global, server: ServerIndex) -> Result<bool, NoMemory>
    ensures brought { OnOk result (BringsFrom server (world_of world.old) (world_of world.new)) }
    ensures idle { IfOk result (λ is_busy. is_busy ≡ false → world_of world.new ≡ world_of world.old) }
    ensures replies { replies_of world.new ≡ replies_of world.old }
    ensures err { OnErr result (BringsFromInPart server (world_of world.old) (world_of world.new)) }
{
    let mut is_busy = false;
    for place in 0..world.list.len() {
        let dest = ServerIndex::new(place);
        if dest != server {
            is_busy |= bring(world, alloc, server, dest)?;
        }
    }
    Ok(is_busy)
}

// What waits at a server for a destination is collected, a transaction is made, and what is unanswered is brought; whether anything was done.
fn bring(
    world: &mut World,
    alloc: Global,
    server: ServerIndex,
    dest: ServerIndex,
) -> Result<bool, NoMemory>
    ensures brought { OnOk result (IsCalmWay server dest (world_of world.old) (world_of world.new)) }
    ensures idle { IfOk result (λ is_busy. is_busy ≡ false → world_of world.new ≡ world_of world.old) }
    ensures replies { replies_of world.new ≡ replies_of world.old }
    ensures err { OnErr result (IsCalmWayInPart server dest (world_of world.old) (world_of world.new)) }
{
    let has_collected = collect_all(world, server, dest)?;
    let is_cut = cut(world, server, dest);
    let is_answered = exchange(world, alloc, server, dest)?;
    Ok(has_collected | is_cut | is_answered)
}

// All parcels for a destination go into its outbox; whether there were some.
fn collect_all(world: &mut World, server: ServerIndex, dest: ServerIndex) -> Result<bool, NoMemory>
    ensures collected { OnOk result (Times (CollectsOne server dest) (world_of world.old) (length (queue_at (world_of world.old) server dest)) (world_of world.new)) }
    ensures idle { IfOk result (λ is_busy. is_busy ≡ false → world_of world.new ≡ world_of world.old) }
    ensures replies { replies_of world.new ≡ replies_of world.old }
    ensures err { OnErr result (TimesInPart (CollectsOne server dest) IsRefused (world_of world.old) (length (queue_at (world_of world.old) server dest)) (world_of world.new)) }
{
    let waiting = world.queued(server, dest);
    for _ in 0..waiting {
        world.collect(server, dest)?;
    }
    Ok(waiting > 0)
}

// A transaction is made for a destination, where none is unanswered and something waits; whether one was.
fn cut(world: &mut World, server: ServerIndex, dest: ServerIndex) -> bool
    ensures cut { Cuts server dest (world_of world.old) (world_of world.new) }
    ensures idle { result ≡ false → world_of world.new ≡ world_of world.old }
    ensures replies { replies_of world.new ≡ replies_of world.old }
{
    match world.cut(server, dest) {
        Outcome::Cut { .. } => true,
        _ => false,
    }
}

// The unanswered transaction for a destination is posted once it is due, taken and settled; whether it was.
fn exchange(
    world: &mut World,
    alloc: Global,
    server: ServerIndex,
    dest: ServerIndex,
) -> Result<bool, NoMemory>
    ensures exchanged { OnOk result (IsExchanged server dest (world_of world.old) (world_of world.new)) }
    ensures idle { IfOk result (λ is_busy. is_busy ≡ false → world_of world.new ≡ world_of world.old) }
    ensures replies { replies_of world.new ≡ replies_of world.old }
    ensures err { OnErr result (IsExchangedInPart server dest (world_of world.old) (world_of world.new)) }
{
    runs_deliver();
    let Some(due_at) = world.due_at(server, dest) else {
        return Ok(false);
    };
    if !world.wait_until(due_at) {
        return Ok(false);
    }
    // It is due, and a request that was posted is answered.
    let Outcome::Posted { packet } = world.post(alloc, server, dest)? else {
        return Ok(false);
    };
    let Outcome::Answered { packet, .. } = world.take(alloc, packet)? else {
        return Ok(false);
    };
    world.settle(alloc, packet)?;
    Ok(true)
}

// All servers give their rooms what waits in front of them; whether any did.
fn give_all(world: &mut World, alloc: Global) -> Result<bool, NoMemory>
    ensures given { OnOk result (ForEach GivesRooms (world_of world.old) (length (world_of world.old).names) (world_of world.new)) }
    ensures idle { IfOk result (λ is_busy. is_busy ≡ false → world_of world.new ≡ world_of world.old) }
    ensures replies { replies_of world.new ≡ replies_of world.old }
    ensures err { OnErr result (ForEachInPart GivesRooms GivesRoomsInPart (world_of world.old) (length (world_of world.old).names) (world_of world.new)) }
{
    let mut is_busy = false;
    for place in 0..world.list.len() {
        is_busy |= give_rooms(world, alloc, ServerIndex::new(place))?;
    }
    Ok(is_busy)
}

// A server gives its rooms what waits in front of them; whether anything did.
fn give_rooms(world: &mut World, alloc: Global, server: ServerIndex) -> Result<bool, NoMemory>
    ensures given { OnOk result (GivesRooms server (world_of world.old) (world_of world.new)) }
    ensures idle { IfOk result (λ is_busy. is_busy ≡ false → world_of world.new ≡ world_of world.old) }
    ensures replies { replies_of world.new ≡ replies_of world.old }
    ensures err { OnErr result (GivesRoomsInPart server (world_of world.old) (world_of world.new)) }
{
    let mut is_busy = false;
    for place in 0..world.known.len() {
        is_busy |= give(world, alloc, server, place)?;
    }
    Ok(is_busy)
}

// A server gives one of its rooms all that waits in front of it; whether anything did.
fn give(
    world: &mut World,
    alloc: Global,
    server: ServerIndex,
    place: usize,
) -> Result<bool, NoMemory>
    ensures given { OnOk result (GivesAll server place (world_of world.old) (world_of world.new)) }
    ensures idle { IfOk result (λ is_busy. is_busy ≡ false → world_of world.new ≡ world_of world.old) }
    ensures replies { replies_of world.new ≡ replies_of world.old }
    ensures err { OnErr result (GivesAllInPart server place (world_of world.old) (world_of world.new)) }
{
    let waiting = world.queued_at(server, place);
    for _ in 0..waiting {
        world.apply_at(alloc, server, place)?;
    }
    Ok(waiting > 0)
}
