// A body that is too large, and the reply for want of memory.
use fed_app::InboxSetup;
use fed_event::Trusting;
use fed_inbox::{Inbox, Refusal};
use fed_replies::PackedStore;
use std::alloc::Global;
use std::test::Fail;

// The inbox of b.example, which takes from a.example.
pub(crate) fn inbox(alloc: Global) -> Result<Inbox<PackedStore>, Fail> {
    let mut servers = Vec::new(alloc);
    servers.push(String::from_str(alloc, "a.example")?)?;
    let mut rooms = Vec::new(alloc);
    rooms.push(String::from_str(alloc, "!r:a.example")?)?;
    let setup = InboxSetup::read(alloc, "b.example", &servers, rooms)?;
    Ok(Inbox::new(
        alloc,
        setup.own,
        setup.servers,
        setup.rooms,
        PackedStore::new(alloc),
    )?)
}

#[test]
fn a_large_body(rt: HostRuntime) -> Result<(), Fail> {
    let alloc = rt.alloc();
    let mut inbox = inbox(alloc)?;
    let keys = Trusting::new(String::from_str(alloc, "b.example")?);
    let long = vec![in alloc; b' '; 16_777_217]?;
    let reply = inbox.answer_body(alloc, "a.example", "1", &long, &keys);
    assert_eq!(rt; reply.status(), 413);
    assert_eq!(rt;
        reply.body(),
        b"{\"errcode\":\"M_TOO_LARGE\",\"error\":\"body too large\"}".as_slice()
    );
    let reply = inbox.answer_body(alloc, "a.example", "1", &long[1..], &keys);
    assert_eq!(rt; reply.body(), Refusal::NotJson.body().as_bytes());
    Ok(())
}

#[test]
fn want_of_memory(rt: HostRuntime) -> Result<(), Fail> {
    assert_eq!(rt; Refusal::OutOfMemory.status(), 500);
    assert_eq!(rt;
        Refusal::OutOfMemory.body(),
        "{\"errcode\":\"M_UNKNOWN\",\"error\":\"out of memory\"}"
    );
    Ok(())
}
