// Whether a world can begin with a setup.
ghost use Rattle.std.specs.Prelude.{◌≡◌, Err, IsSome, IfOk, IfErr};
ghost use Rattle.std.specs.List.Sorted.{IsPermutation};
ghost use Rattle.fed_event.specs.Names.{is_one_of};
ghost use Rattle.fed_dest.specs.List.{list_fault};
ghost use Rattle.fed_dest.specs.ListParts.{AreInOrder};
ghost use Rattle.fed_sim.specs.declared.setup.SimFault.TheVariants.{BadSetup};
ghost use Rattle.fed_sim.specs.Setup.{is_room_id, is_id_of_one, is_of_first, is_among, is_new_user, are_users, is_wrong, are_listed, room_fault_of, are_rooms, is_setup};

use crate::setup::{RoomSetup, Setup, SimFault};
use fed_dest::{List, ListFault, ServerName};
use fed_event::{MAX_TEXT, domain, is_user_id};
use std::alloc::Global;

/// Why a room cannot begin.
#[derive(Clone, Copy, Debug, PartialEq, Eq)]
pub(crate) enum RoomFault {
    /// Its id is none, is not of the first user's server or is that of another room, it has no users, or a user is none or stands
    /// there twice.
    Wrong,
    /// A user is of a server that is not listed.
    UnknownServer,
}

/// The list of these servers. That they make none is told without memory.
pub(crate) fn list_of(alloc: Global, names: &[ServerName]) -> Result<List, SimFault>
    ensures names { IfOk result (λ list. IsPermutation names.now list) }
    ensures order { IfOk result (λ list. AreInOrder list) }
    ensures bad { IsSome (list_fault names.now) → result ≡ Err BadSetup }
    ensures bad_only { IfErr result (λ fault. fault ≡ BadSetup → IsSome (list_fault names.now)) }
{
    if ListFault::of(names).is_some() {
        return Err(SimFault::BadSetup);
    }
    let mut copies = Vec::with_capacity(alloc, names.len())?;
    for name in names {
        copies.push(name.copy(alloc)?)?;
    }
    // They make a list.
    Ok(List::new(copies).unwrap())
}

/// Whether the names make a list of servers, and no room has a fault.
pub(crate) fn is_setup(setup: &Setup) -> bool
    ensures { result ≡ is_setup setup.now }
{
    ListFault::of(&setup.servers).is_none() && are_rooms(&setup.rooms, &setup.servers)
}

// Whether none of the rooms has a fault.
fn are_rooms(rooms: &[RoomSetup], servers: &[ServerName]) -> bool
    ensures { result ≡ are_rooms servers.now rooms.now }
{
    for (place, room) in rooms.iter().enumerate() {
        if room_fault(room, &rooms[..place], servers).is_some() {
            return false;
        }
    }
    true
}

/// Why a room cannot begin beside these others. A `Wrong` goes before an unknown server.
pub(crate) fn room_fault(
    room: &RoomSetup,
    others: &[RoomSetup],
    servers: &[ServerName],
) -> Option<RoomFault>
    ensures { result ≡ room_fault_of servers.now others.now room.now }
{
    if is_wrong(room, others) {
        return Some(RoomFault::Wrong);
    }
    if !are_listed(&room.users, servers) {
        return Some(RoomFault::UnknownServer);
    }
    None
}

// Whether a room cannot begin beside these others, whatever servers there are.
fn is_wrong(room: &RoomSetup, others: &[RoomSetup]) -> bool
    ensures { result ≡ is_wrong others.now room.now }
{
    !is_room_id(&room.id)
        || is_id_of_one(&room.id, others)
        || !is_of_first(&room.users, &room.id)
        || !are_users(&room.users)
}

// Whether a text is the id of a room.
fn is_room_id(id: &str) -> bool
    ensures { result ≡ is_room_id id.now }
{
    id.len() <= MAX_TEXT && id.starts_with('!') && id.as_bytes().contains(&b':')
}

// Whether one of the rooms has this id.
fn is_id_of_one(id: &str, rooms: &[RoomSetup]) -> bool
    ensures { result ≡ is_id_of_one rooms.now id.now }
{
    rooms.iter().any(|room| id == room.id.as_str())
}

// Whether the room of this id is of the server of the first of these users.
fn is_of_first(users: &[String], id: &str) -> bool
    ensures { result ≡ is_of_first users.now id.now }
{
    match users.first() {
        Some(user) => domain(user) == domain(id),
        None => false,
    }
}

// Whether the texts are ids of users, each once.
fn are_users(users: &[String]) -> bool
    ensures { result ≡ are_users users.now }
{
    for (place, user) in users.iter().enumerate() {
        if !is_new_user(user, &users[place + 1..]) {
            return false;
        }
    }
    true
}

// Whether a text is the id of a user, and of none of these.
fn is_new_user(user: &String, others: &[String]) -> bool
    ensures { result ≡ is_new_user user.now others.now }
{
    is_user_id(user) && !is_among(others, user)
}

// Whether one of these users has this id.
fn is_among(users: &[String], id: &str) -> bool
    ensures { result ≡ is_among users.now id.now }
{
    users.iter().any(|user| id == user.as_str())
}

// Whether all of these users are of the servers.
fn are_listed(users: &[String], servers: &[ServerName]) -> bool
    ensures { result ≡ are_listed servers.now users.now }
{
    users.iter().all(|user| is_listed(domain(user), servers))
}

// Whether a server is among these.
fn is_listed(server: &str, servers: &[ServerName]) -> bool
    ensures { result ≡ is_one_of servers.now server.now }
{
    servers.iter().any(|other| server == other.as_str())
}
