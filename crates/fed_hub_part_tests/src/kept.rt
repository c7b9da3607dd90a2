// A small room, journal and outboxes, some of which do not fit together.
ghost use Rattle.std.specs.Prelude.{◌≡◌, Some, length, slice_get};
ghost use Rattle.fed_wires.specs.ReceiveEnd.{new_receiver};
ghost use Rattle.fed_wires.specs.Seat.{AreOwners};

use fed_dest::{List, ServerIndex, ServerName, ServerSet};
use fed_event::{Checked, Pdu, StandIn, Trusting, Version, check_in};
use fed_hub_kept::{
    are_answered, are_brought, are_given, are_in_places, are_of_journal, are_received,
    are_sent_as_stored, is_of_journal, is_sent_as_stored,
};
use fed_hub_rooms::{RoomToken, run_room};
use fed_hub_serving::{ServeToken, ServingNaming};
use fed_hub_state::sections::collect;
use fed_hub_state::{KeptRoom, Naming, SeatedOutbox};
use fed_journal::{Cause, Entry, Load, MAX_ENTRIES, Parcel, Place};
use fed_json::{Json, read};
use fed_outbox::Outbox;
use fed_room::{Room, started};
use fed_room_contract::{Draft, Input, RoomEngine};
use fed_wires::{AnyMessage, Board, ReceiveEnd, Seat, SendEnd, wire};
use std::alloc::Global;
use std::marker::Brand;
use std::sync::Wait;
use std::test::*;

const FIRST: &str =
    "{\"auth_events\":[],\"content\":{},\"depth\":1,\"hashes\":{},\"origin_server_ts\":1,\"prev_events\":[],\
    \"room_id\":\"!r:a\",\"sender\":\"@u:a\",\"signatures\":{\"a\":{\"k:1\":\"AAAAAAAAAAAAAAAAAAAAAAAAAAAAAAAAAAAAAAAAAAA\
    AAAAAAAAAAAAAAAAAAAAAAAAAAAAAAAAAAAAAAAAAAA\"}},\"type\":\"m.room.message\"}";

const SECOND: &str =
    "{\"auth_events\":[],\"content\":{},\"depth\":1,\"hashes\":{},\"origin_server_ts\":2,\"prev_events\":[],\
    \"room_id\":\"!r:a\",\"sender\":\"@u:a\",\"signatures\":{\"a\":{\"k:1\":\"AAAAAAAAAAAAAAAAAAAAAAAAAAAAAAAAAAAAAAAAAAA\
    AAAAAAAAAAAAAAAAAAAAAAAAAAAAAAAAAAAAAAAAAAA\"}},\"type\":\"m.room.message\"}";

const THIRD: &str =
    "{\"auth_events\":[],\"content\":{},\"depth\":1,\"hashes\":{},\"origin_server_ts\":3,\"prev_events\":[],\
    \"room_id\":\"!r:a\",\"sender\":\"@u:a\",\"signatures\":{\"a\":{\"k:1\":\"AAAAAAAAAAAAAAAAAAAAAAAAAAAAAAAAAAAAAAAAAAA\
    AAAAAAAAAAAAAAAAAAAAAAAAAAAAAAAAAAAAAAAAAAA\"}},\"type\":\"m.room.message\"}";

// The event of a text, under keys that trust every signature.
fn event(alloc: Global, text: &str) -> Option<Checked> {
    let keys = Trusting::new(String::from_str(alloc, "a").ok()?);
    let event = Pdu::read(alloc, Version::V10, text.as_bytes()).ok()?;
    check_in(alloc, event, &keys).ok()
}

// What a room was given: the first event and the second one came, and between them it made one itself.
fn inputs(alloc: Global) -> Option<Vec<Input>> {
    let mut inputs = Vec::with_capacity(alloc, 4).ok()?;
    inputs.push(Input::Receive(event(alloc, FIRST)?)).ok()?;
    inputs.push(Input::Advance).ok()?;
    inputs.push(Input::Commit(event(alloc, THIRD)?)).ok()?;
    inputs.push(Input::Receive(event(alloc, SECOND)?)).ok()?;
    Some(inputs)
}

// Whether the events of these texts are those that came to it.
fn have_come(alloc: Global, texts: &[&str]) -> Option<bool> {
    let mut given = Vec::with_capacity(alloc, texts.len()).ok()?;
    for text in texts {
        given.push(event(alloc, text)?).ok()?;
    }
    Some(are_received(&inputs(alloc)?, &given))
}

#[test]
fn what_came_is_what_was_given(rt: HostRuntime) -> Result<(), Fail> {
    let alloc = rt.alloc();
    assert_eq!(rt; have_come(alloc, &[FIRST, SECOND]), Some(true));
    assert_eq!(rt; have_come(alloc, &[FIRST]), Some(false));
    assert_eq!(rt; have_come(alloc, &[SECOND, FIRST]), Some(false));
    assert_eq!(rt; have_come(alloc, &[FIRST, THIRD, SECOND]), Some(false));
    Ok(())
}

fn typing(alloc: Global) -> Option<Json> {
    read(alloc, b"{\"content\":{},\"edu_type\":\"m.typing\"}").ok()
}

fn servers(alloc: Global, places: &[ServerIndex]) -> Option<ServerSet> {
    ServerSet::rising(Vec::from_slice(alloc, places).ok()?)
}

// A journal that places for the server at place 1 the first event, an EDU, the second event and the end, and for the one at place 2 others.
fn entries(alloc: Global) -> Option<Vec<Entry>> {
    let (one, two) = (ServerIndex::new(1), ServerIndex::new(2));
    let mut entries = Vec::with_capacity(alloc, 6).ok()?;
    let both = servers(alloc, &[one, two])?;
    entries.push(Entry::Event(event(alloc, FIRST)?, both)).ok()?;
    let second = servers(alloc, &[two])?;
    entries
        .push(Entry::Event(event(alloc, THIRD)?, second))
        .ok()?;
    let both = servers(alloc, &[one, two])?;
    entries.push(Entry::Edu(typing(alloc)?, both)).ok()?;
    let first = servers(alloc, &[one])?;
    entries
        .push(Entry::Event(event(alloc, SECOND)?, first))
        .ok()?;
    entries.push(Entry::Close(one, Cause::Asked)).ok()?;
    let both = servers(alloc, &[one, two])?;
    entries.push(Entry::Event(event(alloc, THIRD)?, both)).ok()?;
    Some(entries)
}

// What a parcel holds.
#[derive(Clone, Copy)]
enum Held {
    First,
    Second,
    Third,
    Edu,
    End,
}

fn load(alloc: Global, held: Held) -> Option<Load> {
    match held {
        Held::First => Some(Load::Event(event(alloc, FIRST)?)),
        Held::Second => Some(Load::Event(event(alloc, SECOND)?)),
        Held::Third => Some(Load::Event(event(alloc, THIRD)?)),
        Held::Edu => Some(Load::Edu(typing(alloc)?)),
        Held::End => Some(Load::End),
    }
}

// Whether an outbox for the server at place 1 that accepted these is of that journal.
fn are_placed(alloc: Global, held: &[Held]) -> Option<bool> {
    let dest = ServerIndex::new(1);
    let mut outbox = Outbox::new(alloc, dest);
    for one in held {
        let place = Place::new(dest, outbox.expected().min(MAX_ENTRIES));
        let load = load(alloc, *one)?;
        outbox.accept(Parcel { place, load }).ok()?;
    }
    Some(is_of_journal(&outbox, &entries(alloc)?))
}

#[test]
fn what_was_accepted_is_what_was_placed(rt: HostRuntime) -> Result<(), Fail> {
    let alloc = rt.alloc();
    let (first, second, other) = (Held::First, Held::Second, Held::Third);
    let (edu, end) = (Held::Edu, Held::End);
    assert_eq!(rt; are_placed(alloc, &[]), Some(true));
    assert_eq!(rt; are_placed(alloc, &[first, edu]), Some(true));
    assert_eq!(rt; are_placed(alloc, &[first, edu, second, end]), Some(true));
    // Of another server, out of order, with an end too early, and with one too many.
    assert_eq!(rt; are_placed(alloc, &[first, other]), Some(false));
    assert_eq!(rt; are_placed(alloc, &[second, edu, first]), Some(false));
    assert_eq!(rt; are_placed(alloc, &[first, edu, end]), Some(false));
    assert_eq!(rt; are_placed(alloc, &[first, edu, edu]), Some(false));
    assert_eq!(rt;
        are_placed(alloc, &[first, edu, second, other]),
        Some(false)
    );
    Ok(())
}

// Whether an outbox for the server at place 0 that accepted these is of a journal that places the first event for it.
fn are_all_placed<N: Naming>(
    alloc: Global,
    board: &Board,
    mut owners: Vec<Seat>,
    held: &[Held],
) -> Option<bool>
    requires board { board.now.id ≡ N.board }
    requires owners { AreOwners board.now.id owners.items × (length owners.items ≡ 1) }
{
    let dest = ServerIndex::new(0);
    let mut outbox = SeatedOutbox::<N>::new(alloc, dest, owners.pop()?);
    for one in held {
        let place = Place::new(dest, outbox.outbox().expected().min(MAX_ENTRIES));
        let load = load(alloc, *one)?;
        collect(&mut outbox, Parcel { place, load }).ok()?;
    }
    let outboxes = vec![in alloc; outbox].ok()?;
    let placed = Entry::Event(event(alloc, FIRST)?, servers(alloc, &[dest])?);
    Some(are_of_journal(&outboxes, &[placed]))
}

// The same, at a board of its own.
fn are_placed_at_a_board(alloc: Global, held: &[Held]) -> Option<bool> {
    let (board, owners, readers) = Board::new(alloc, 1, 0).ok()?;
    drop(readers);
    are_all_placed::<Brand>(alloc, &board, owners, held)
}

#[test]
fn what_all_accepted_is_what_was_placed(rt: HostRuntime) -> Result<(), Fail> {
    let alloc = rt.alloc();
    let (first, other) = (Held::First, Held::Third);
    assert_eq!(rt; are_placed_at_a_board(alloc, &[]), Some(true));
    assert_eq!(rt; are_placed_at_a_board(alloc, &[first]), Some(true));
    assert_eq!(rt; are_placed_at_a_board(alloc, &[other]), Some(false));
    assert_eq!(rt; are_placed_at_a_board(alloc, &[first, other]), Some(false));
    Ok(())
}

// The servers a, b and c.
fn list(alloc: Global) -> Option<List> {
    let mut names = Vec::with_capacity(alloc, 3).ok()?;
    for name in ["a", "b", "c"] {
        names.push(ServerName::read(alloc, name).ok()?).ok()?;
    }
    List::new(names).ok()
}

fn keys(alloc: Global) -> Option<Vec<StandIn>> {
    let mut keys = Vec::with_capacity(alloc, 3).ok()?;
    for server in ["a", "b", "c"] {
        let own = StandIn::new(String::from_str(alloc, server).ok()?);
        keys.push(own).ok()?;
    }
    Some(keys)
}

/// A room of two users of a, and between them one of b and one of c.
const ROOM: &str = "!r:a";

/// A room of two users of a, and between them one of b.
const PAIR: &str = "!s:a";

fn users(alloc: Global, room: &str) -> Option<Vec<String>> {
    let mut users = Vec::with_capacity(alloc, 4).ok()?;
    for user in ["@u:a", "@v:b", "@w:c", "@x:a"] {
        if room != PAIR || user != "@w:c" {
            users.push(String::from_str(alloc, user).ok()?).ok()?;
        }
    }
    Some(users)
}

// The events that one of the two rooms begins with. The last one of them is that a second user of a joins.
fn beginning(alloc: Global, room: &str) -> Option<Vec<Checked>> {
    started(
        alloc,
        Version::V10,
        room,
        &users(alloc, room)?,
        &keys(alloc)?,
    )
    .ok()
}

// A message in one of the two rooms, which it has not stored.
fn message(alloc: Global, room: &str) -> Option<Checked> {
    let draft = Draft {
        room: String::from_str(alloc, room).ok()?,
        sender: String::from_str(alloc, "@u:a").ok()?,
        kind: String::from_str(alloc, "m.x").ok()?,
        state_key: None,
        content: read(alloc, b"{}").ok()?,
        at_ms: 0,
    };
    let keys = StandIn::new(String::from_str(alloc, "a").ok()?);
    let mut room = Room::start(alloc, "a", beginning(alloc, room)?).ok()?;
    let prepared = room.prepare(alloc, draft, &keys).ok()?;
    prepared.event().copy(alloc).ok()
}

// Whether an event is stored in the first room, and was sent to the servers at these places.
fn is_sent(alloc: Global, event: &Checked, places: &[ServerIndex]) -> Option<bool> {
    let room = KeptRoom::start(alloc, "a", beginning(alloc, ROOM)?).ok()?;
    is_sent_by(alloc, &room, event, places)
}

// The same of this room.
fn is_sent_by(
    alloc: Global,
    room: &KeptRoom,
    event: &Checked,
    places: &[ServerIndex],
) -> Option<bool> {
    let (list, dests) = (list(alloc)?, servers(alloc, places)?);
    is_sent_as_stored(
        alloc,
        room.room(),
        ServerIndex::new(0),
        &list,
        event,
        &dests,
    )
    .ok()
}

#[test]
fn an_event_goes_to_the_servers_that_are_joined(rt: HostRuntime) -> Result<(), Fail> {
    let alloc = rt.alloc();
    let (one, two) = (ServerIndex::new(1), ServerIndex::new(2));
    let last = beginning(alloc, ROOM).and_then(|mut events| events.pop());
    let last = last.ok_or("memory")?;
    assert_eq!(rt; is_sent(alloc, &last, &[one, two]), Some(true));
    assert_eq!(rt; is_sent(alloc, &last, &[one]), Some(false));
    let other = message(alloc, ROOM).ok_or("memory")?;
    assert_eq!(rt; is_sent(alloc, &other, &[one, two]), Some(false));
    Ok(())
}

// The last of the events that each of the two rooms began with, between them an EDU and a closing; the event of the second room was sent to
// these places.
fn journal(alloc: Global, places: &[ServerIndex]) -> Option<Vec<Entry>> {
    let (one, two) = (ServerIndex::new(1), ServerIndex::new(2));
    let mut entries = Vec::with_capacity(alloc, 4).ok()?;
    let event = beginning(alloc, ROOM)?.pop()?;
    let both = servers(alloc, &[one, two])?;
    entries.push(Entry::Event(event, both)).ok()?;
    let edu = Entry::Edu(typing(alloc)?, servers(alloc, &[one])?);
    entries.push(edu).ok()?;
    entries.push(Entry::Close(two, Cause::Asked)).ok()?;
    let event = beginning(alloc, PAIR)?.pop()?;
    let dests = servers(alloc, places)?;
    entries.push(Entry::Event(event, dests)).ok()?;
    Some(entries)
}

// Whether all events of that journal went where these rooms send them.
fn are_sent(alloc: Global, rooms: &[&str], places: &[ServerIndex]) -> Option<bool> {
    let kept = kept_rooms(alloc, rooms)?;
    let entries = journal(alloc, places)?;
    are_sent_as_stored(alloc, &kept, ServerIndex::new(0), &list(alloc)?, &entries).ok()
}

#[test]
fn all_events_go_where_their_rooms_send_them(rt: HostRuntime) -> Result<(), Fail> {
    let alloc = rt.alloc();
    let (one, two) = (ServerIndex::new(1), ServerIndex::new(2));
    assert_eq!(rt; are_sent(alloc, &[ROOM, PAIR], &[one]), Some(true));
    assert_eq!(rt; are_sent(alloc, &[PAIR, ROOM], &[one]), Some(true));
    // The second event went to one server more, or to one fewer.
    assert_eq!(rt; are_sent(alloc, &[ROOM, PAIR], &[one, two]), Some(false));
    assert_eq!(rt; are_sent(alloc, &[ROOM, PAIR], &[]), Some(false));
    // Its room is not there.
    assert_eq!(rt; are_sent(alloc, &[ROOM], &[one]), Some(false));
    assert_eq!(rt; are_sent(alloc, &[], &[one]), Some(false));
    Ok(())
}

// These rooms.
fn kept_rooms(alloc: Global, rooms: &[&str]) -> Option<Vec<KeptRoom>> {
    let mut kept = Vec::with_capacity(alloc, rooms.len()).ok()?;
    for room in rooms {
        let room = KeptRoom::start(alloc, "a", beginning(alloc, *room)?).ok()?;
        kept.push(room).ok()?;
    }
    Some(kept)
}

// Whether the two rooms are in the places of these ids.
fn are_placed_by(alloc: Global, ids: &[&str]) -> Option<bool> {
    let mut texts = Vec::with_capacity(alloc, ids.len()).ok()?;
    for id in ids {
        texts.push(String::from_str(alloc, *id).ok()?).ok()?;
    }
    Some(are_in_places(&kept_rooms(alloc, &[ROOM, PAIR])?, &texts))
}

#[test]
fn rooms_are_in_the_places_of_their_ids(rt: HostRuntime) -> Result<(), Fail> {
    let alloc = rt.alloc();
    assert_eq!(rt; are_placed_by(alloc, &[ROOM, PAIR]), Some(true));
    assert_eq!(rt; are_placed_by(alloc, &[PAIR, ROOM]), Some(false));
    assert_eq!(rt; are_placed_by(alloc, &[ROOM]), Some(false));
    assert_eq!(rt; are_placed_by(alloc, &[ROOM, PAIR, PAIR]), Some(false));
    Ok(())
}

// Whether the thread of the first room, which gave it nothing, gave just what came: beside that room, and beside none.
fn is_nothing_given<N: ServingNaming>(
    alloc: Global,
    end: ReceiveEnd<Checked, AnyMessage>,
) -> Option<[bool; 2]>
    requires wire { slice_get N.rooms 0 ≡ Some end.wire }
    requires new { end ≡ new_receiver end.wire }
{
    let token = RoomToken::<N>::new(alloc, 0, end);
    let tokens = vec![in alloc; token].ok()?;
    let rooms = kept_rooms(alloc, &[ROOM])?;
    Some([are_given(&rooms, &tokens), are_given(&[], &tokens)])
}

#[test]
fn a_room_was_given_what_its_thread_gave(rt: HostRuntime) -> Result<(), Fail> {
    let alloc = rt.alloc();
    let (sender, end) = wire(alloc)?;
    drop(sender);
    let given = is_nothing_given::<Brand>(alloc, end);
    assert_eq!(rt; given, Some([true, false]));
    Ok(())
}

// Whether what came to a room was brought by no request: before a message came over its wire, and behind it.
fn is_nothing_brought<N: ServingNaming, R: Wait>(
    rt: &R,
    alloc: Global,
    mut sender: SendEnd<Checked, AnyMessage>,
    end: ReceiveEnd<Checked, AnyMessage>,
) -> Option<[bool; 2]>
    requires wire { slice_get N.rooms 0 ≡ Some end.wire }
    requires new { end ≡ new_receiver end.wire }
{
    let mut room = KeptRoom::start(alloc, "a", beginning(alloc, ROOM)?).ok()?;
    let before = is_brought_by_none(alloc, &room)?;
    send_message(rt, alloc, &mut sender)?;
    let mut token = RoomToken::<N>::new(alloc, 0, end);
    run_room(rt, alloc, &mut room, &mut token, 1);
    let behind = is_brought_by_none(alloc, &room)?;
    Some([before, behind])
}

fn is_brought_by_none(alloc: Global, room: &KeptRoom) -> Option<bool> {
    let known = vec![in alloc; String::from_str(alloc, ROOM).ok()?].ok()?;
    are_brought(alloc, std::slice::from_ref(room), &known, &[]).ok()
}

fn send_message<R: Wait>(
    rt: &R,
    alloc: Global,
    sender: &mut SendEnd<Checked, AnyMessage>,
) -> Option<()> {
    let message = message(alloc, ROOM)?;
    sender.reserve(rt, 1).ok()?;
    sender.send(rt, message).ok()
}

#[test]
fn a_room_is_given_what_a_request_brought(rt: HostRuntime) -> Result<(), Fail> {
    let alloc = rt.alloc();
    let (sender, end) = wire(alloc)?;
    let brought = is_nothing_brought::<Brand, _>(&rt, alloc, sender, end);
    assert_eq!(rt; brought, Some([true, false]));
    Ok(())
}

#[test]
fn a_history_without_points_is_of_threads_that_answered_nothing(
    rt: HostRuntime,
) -> Result<(), Fail> {
    let alloc = rt.alloc();
    let tokens = [ServeToken::<Brand>::new(alloc), ServeToken::new(alloc)];
    assert!(rt; are_answered(alloc, &tokens, &[])?);
    Ok(())
}
