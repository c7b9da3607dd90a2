// Worlds, by what others see of them, and setups that no world begins with.
use fed_dest::{ServerIndex, ServerName, ServerSet};
use fed_room_contract::RoomEngine;
use fed_sim::{Outcome, RoomSetup, Setup, SimFault, World, calm, read_script, run};
use std::alloc::Global;
use std::test::Fail;

const SCRIPT: &[u8] = b"\
servers a b
room !r:a @u:a @v:b
send a !r:a @u:a m.x - {}
edu a m.x b {\"n\":1}
close b a
";

// A setup of servers with spaces between them, and of rooms with `;` between them.
fn setup_of(alloc: Global, servers: &str, rooms: &str) -> Result<Setup, Fail> {
    let mut names = Vec::new(alloc);
    for name in servers.split_whitespace() {
        names.push(ServerName::read(alloc, name)?)?;
    }
    let mut setups = Vec::new(alloc);
    for room in rooms.split(';') {
        setups.push(room_of(alloc, room)?)?;
    }
    Ok(Setup {
        servers: names,
        rooms: setups,
        epoch: 1,
    })
}

// A room, by its id and its users with spaces between them.
fn room_of(alloc: Global, text: &str) -> Result<RoomSetup, Fail> {
    let (id, users) = text.split_once(' ').ok_or("an id and a space")?;
    Ok(RoomSetup {
        id: String::from_str(alloc, id)?,
        users: words_of(alloc, users)?,
    })
}

// The words of a text; none of an empty one.
fn words_of(alloc: Global, text: &str) -> Result<Vec<String>, Fail> {
    let mut words = Vec::new(alloc);
    for word in text.split_whitespace() {
        words.push(String::from_str(alloc, word)?)?;
    }
    Ok(words)
}

// The world after a script.
fn world_of(alloc: Global, script: &[u8]) -> Result<World, Fail> {
    let (setup, steps) = read_script(alloc, script)?;
    Ok(run(alloc, &setup, &steps)?)
}

#[test]
fn a_round_of_calm_delivers_all(rt: HostRuntime) -> Result<(), Fail> {
    let alloc = rt.alloc();
    let mut world = world_of(alloc, SCRIPT)?;
    let (a, b) = (ServerIndex::new(0), ServerIndex::new(1));
    assert_eq!(rt; world.names().len(), 2);
    assert_eq!(rt; world.names()[1].as_str(), "b");
    let mut to_b = Vec::new(alloc);
    to_b.push(b)?;
    let to_b = ServerSet::rising(to_b).ok_or("it rises")?;
    let edu_to_b = to_b.copy(alloc)?;
    assert_eq!(rt; world.replies().len(), 3);
    assert!(rt;
        world.replies()[0]
            == Outcome::Sent {
                number: 1,
                dests: to_b
            }
    );
    assert!(rt; world.replies()[1] == Outcome::EduSent { dests: edu_to_b });
    assert!(rt; world.replies()[2] == Outcome::Closed);
    assert_eq!(rt; world.journal(a).ok_or("listed")?.entries().len(), 2);
    assert_eq!(rt; world.journal(b).ok_or("listed")?.entries().len(), 1);
    assert!(rt; world.journal(ServerIndex::new(2)).is_none());
    assert_eq!(rt; world.packets().len(), 0);
    calm(alloc, &mut world, 1)?;
    assert_eq!(rt; world.now(), 0);
    assert_eq!(rt; world.packets().len(), 2);
    assert_eq!(rt; world.replies().len(), 3);
    assert!(rt; world.outbox(a, a).is_none());
    let outbox = world.outbox(a, b).ok_or("listed")?;
    assert_eq!(rt; outbox.acked(), 1);
    assert_eq!(rt; outbox.acked_edus(), 1);
    let inbox = world.inbox(b).ok_or("listed")?;
    let mut taken = inbox.taken("a");
    assert!(rt; taken.next().is_some() && taken.next().is_none());
    let mut taken_edus = inbox.taken_edus("a");
    assert!(rt; taken_edus.next().is_some() && taken_edus.next().is_none());
    let rooms = world.rooms(b).ok_or("listed")?;
    assert_eq!(rt; rooms.len(), 1);
    assert_eq!(rt; rooms[0].queued(), 0);
    // Five events that the room begins with, and the one that came.
    assert_eq!(rt; rooms[0].room().graph().len(), 6);
    Ok(())
}

#[test]
fn no_world_begins_with_a_bad_setup(rt: HostRuntime) -> Result<(), Fail> {
    let alloc = rt.alloc();
    for (servers, rooms) in [
        ("", "!r:a @u:a;!s:a @u:a"),
        ("a a", "!r:a @u:a;!s:a @u:a"),
        ("a", "!r:a @u:a;!r:a @u:a"),
        ("a", "!r:a @u:a;!s:a "),
        ("a", "!r:a @u:a @u:a;!s:a @u:a"),
        ("a", "!r:a @u:a;!s:a @u:a u:a"),
        ("a", "!r:a @u:a @v:b;!s:a @u:a"),
        ("a", "r:a @u:a;!s:a @u:a"),
        ("a", "!r @u:a;!s:a @u:a"),
        ("a b", "!r:a @u:a;!s:a @v:b"),
    ] {
        let setup = setup_of(alloc, servers, rooms)?;
        match run(alloc, &setup, &[]) {
            Ok(_) => return Err(Fail::from("a world has begun")),
            Err(fault) => assert_eq!(rt; fault, SimFault::BadSetup),
        }
    }
    let setup = setup_of(alloc, "a b", "!r:a @u:a @v:b;!s:b @v:b")?;
    let world = run(alloc, &setup, &[])?;
    let a = ServerIndex::new(0);
    assert_eq!(rt; world.rooms(a).ok_or("listed")?.len(), 2);
    Ok(())
}
