// What two clients were told, compared with a small journal; and notes of other things.
ghost use Rattle.std.specs.Prelude.{◌≡◌};

use fed_dest::{ServerIndex, ServerSet};
use fed_event::{Checked, StandIn, Version, is_sent_by, seal};
use fed_hub_told::{Marks, Note, Told, ToldEdu, ToldEvent, are_as_told, is_as_told};
use fed_journal::{Cause, Entry};
use fed_json::{Json, NoMemory, read};
use fed_room_contract::Draft;
use std::alloc::Global;
use std::test::*;

const CONTENTS: [&str; 2] = ["{\"body\":\"one\"}", "{\"body\":\"two\"}"];

const EVENTS: [&str; 2] = [
    "{\"auth_events\":[],\"content\":{\"body\":\"one\"},\"depth\":1,\"origin_server_ts\":5,\"prev_events\":[],\"room_id\":\"!r:a\",\"sender\":\"@u:a\",\"type\":\"m.room.message\"}",
    "{\"auth_events\":[],\"content\":{\"body\":\"two\"},\"depth\":2,\"origin_server_ts\":5,\"prev_events\":[],\"room_id\":\"!r:a\",\"sender\":\"@u:a\",\"type\":\"m.room.message\"}",
];

const EDUS: [&str; 2] = [
    "{\"content\":{},\"edu_type\":\"m.typing\"}",
    "{\"content\":{},\"edu_type\":\"m.receipt\"}",
];

// The event of a text, from the server a.
fn event(alloc: Global, text: &str) -> Option<Checked> {
    let keys = StandIn::new(String::from_str(alloc, "a").ok()?);
    let parts = read(alloc, text.as_bytes()).ok()?;
    if !is_sent_by("a", &parts) {
        return None;
    }
    seal(alloc, Version::V10, parts, &keys).ok()
}

// The draft that an event of this content is made of.
fn draft(alloc: Global, content: &str) -> Option<Draft> {
    Some(Draft {
        room: String::from_str(alloc, "!r:a").ok()?,
        sender: String::from_str(alloc, "@u:a").ok()?,
        kind: String::from_str(alloc, "m.room.message").ok()?,
        state_key: None,
        content: read(alloc, content.as_bytes()).ok()?,
        at_ms: 5,
    })
}

fn edu(alloc: Global, text: &str) -> Option<Json> {
    read(alloc, text.as_bytes()).ok()
}

// The servers at the first places behind the own one.
fn dests(alloc: Global, count: usize) -> Option<ServerSet> {
    let all = [ServerIndex::new(1), ServerIndex::new(2)];
    ServerSet::rising(Vec::from_slice(alloc, all.get(..count)?).ok()?)
}

// Two events, and between them an EDU for one server and an EDU for two, and a closing.
fn journal(alloc: Global) -> Option<Vec<Entry>> {
    let mut entries = Vec::new(alloc);
    push_event(alloc, &mut entries, EVENTS[0])?;
    push_edu(alloc, &mut entries, EDUS[0], 1)?;
    entries
        .push(Entry::Close(ServerIndex::new(1), Cause::Asked))
        .ok()?;
    push_edu(alloc, &mut entries, EDUS[1], 2)?;
    push_event(alloc, &mut entries, EVENTS[1])?;
    Some(entries)
}

fn push_event(alloc: Global, entries: &mut Vec<Entry>, text: &str) -> Option<()> {
    let event = event(alloc, text)?;
    entries.push(Entry::Event(event, dests(alloc, 1)?)).ok()
}

fn push_edu(alloc: Global, entries: &mut Vec<Entry>, text: &str, count: usize) -> Option<()> {
    let edu = edu(alloc, text)?;
    entries.push(Entry::Edu(edu, dests(alloc, count)?)).ok()
}

// What a client was told, by three digits: the number; of which event it was told the id, or of which EDU; and of which event it wanted to send the
// content, or for how many servers the EDU is.
#[derive(Clone, Copy)]
struct Tell {
    number: u64,
    thing: usize,
    more: usize,
}

fn read_tell(digits: &str) -> Option<Tell> {
    let [number, thing, more] = digits.as_bytes() else {
        return None;
    };
    Some(Tell {
        number: digit(*number) as u64,
        thing: digit(*thing),
        more: digit(*more),
    })
}

fn digit(byte: u8) -> usize {
    byte.wrapping_sub(b'0') as usize
}

// Notes that a client was told of events.
fn note_events(alloc: Global, told: &mut Told, tells: &str) -> Option<()> {
    for digits in tells.split_whitespace() {
        let told_event = told_event(alloc, read_tell(digits)?)?;
        told.reserve_event().ok()?;
        told.note_event(told_event);
    }
    Some(())
}

fn told_event(alloc: Global, tell: Tell) -> Option<ToldEvent> {
    let event = event(alloc, EVENTS.get(tell.thing)?)?;
    Some(ToldEvent {
        draft: draft(alloc, CONTENTS.get(tell.more)?)?,
        number: tell.number,
        event_id: event.event().id().copy(alloc).ok()?,
    })
}

// Notes that a client was told of EDUs.
fn note_edus(alloc: Global, told: &mut Told, tells: &str) -> Option<()> {
    for digits in tells.split_whitespace() {
        let told_edu = told_edu(alloc, read_tell(digits)?)?;
        told.reserve_edu().ok()?;
        told.note_edu(told_edu);
    }
    Some(())
}

fn told_edu(alloc: Global, tell: Tell) -> Option<ToldEdu> {
    Some(ToldEdu {
        edu: edu(alloc, EDUS.get(tell.thing)?)?,
        dests: dests(alloc, tell.more)?,
        number: tell.number,
    })
}

// What two clients were told, and whether the journal is as they were told.
type Row = (&'static str, &'static str, bool);

fn client(alloc: Global, events: &str, edus: &str) -> Option<Told> {
    let mut told = Told::new(alloc);
    note_events(alloc, &mut told, events)?;
    note_edus(alloc, &mut told, edus)?;
    Some(told)
}

// Whether the journal is as two clients were told.
fn compare(alloc: Global, events: [&str; 2], edus: [&str; 2]) -> Option<bool> {
    let first = client(alloc, events[0], edus[0])?;
    let second = client(alloc, events[1], edus[1])?;
    let told = vec![in alloc; first, second].ok()?;
    is_as_told(alloc, &told, &journal(alloc)?).ok()
}

const OF_EVENTS: [Row; 11] = [
    ("100", "211", true),
    ("", "100 211", true),
    // Numbers fall in one list.
    ("211 100", "", false),
    // A number was told twice.
    ("100 211", "211", false),
    // A number was told to none.
    ("", "211", false),
    ("100", "", false),
    // There is no such number.
    ("000 100", "211", false),
    ("100", "211 311", false),
    // The id is that of the other event.
    ("110", "211", false),
    // The draft has other content.
    ("100", "210", false),
    // Each has the number of the other.
    ("111", "200", false),
];

#[test]
fn events_are_as_clients_were_told(rt: HostRuntime) -> Result<(), Fail> {
    for (first, second, expected) in OF_EVENTS {
        let found = compare(rt.alloc(), [first, second], ["212", "101"]);
        assert_eq!(rt; found, Some(expected));
    }
    Ok(())
}

const OF_EDUS: [Row; 7] = [
    ("101 212", "", true),
    // Numbers fall in one list.
    ("", "212 101", false),
    // A number was told twice, or to none.
    ("101", "101 212", false),
    ("", "101", false),
    // It is the other EDU.
    ("111", "212", false),
    // It is for one server more, or one fewer.
    ("102", "212", false),
    ("101", "211", false),
];

#[test]
fn edus_are_as_clients_were_told(rt: HostRuntime) -> Result<(), Fail> {
    for (first, second, expected) in OF_EDUS {
        let found = compare(rt.alloc(), ["100", "211"], [first, second]);
        assert_eq!(rt; found, Some(expected));
    }
    Ok(())
}

// A note that a byte has a number.
#[derive(Drop)]
struct NotedByte {
    number: u64,
    byte: u8,
}

impl Note<u8> for NotedByte {
    ghost number = { λ noted. noted.number };

    ghost IsOf = { λ noted byte. noted.byte ≡ byte };

    fn number(&self) -> u64 {
        self.number
    }

    fn is_of(&self, byte: &u8) -> Result<bool, NoMemory> {
        Ok(self.byte == *byte)
    }
}

#[test]
fn bytes_are_as_their_holders_were_told(rt: HostRuntime) -> Result<(), Fail> {
    let noted = |number, byte| NotedByte { number, byte };
    let first = [noted(1, b'x'), noted(3, b'z')];
    let second = [noted(2, b'y')];
    let told: [&[NotedByte]; 3] = [&first, &[], &second];
    assert!(rt; are_as_told(rt.alloc(), &told, b"xyz")?);
    // Another byte, a byte more, and a byte fewer.
    assert!(rt; !are_as_told(rt.alloc(), &told, b"xyx")?);
    assert!(rt; !are_as_told(rt.alloc(), &told, b"xyzz")?);
    assert!(rt; !are_as_told(rt.alloc(), &told, b"xy")?);
    Ok(())
}

#[test]
fn each_number_is_marked_once(rt: HostRuntime) -> Result<(), Fail> {
    let mut marks = Marks::new(rt.alloc(), 2)?;
    let first = [marks.mark(0), marks.mark(2), marks.mark(3), marks.mark(2)];
    assert_eq!(rt; first, [false, true, false, false]);
    assert!(rt; !marks.all_marked());
    assert!(rt; marks.mark(1));
    assert!(rt; marks.all_marked());
    Ok(())
}
