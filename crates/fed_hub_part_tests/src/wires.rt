// Small runs of a wire and of a board, by two threads.
ghost use Rattle.std.specs.Prelude.{◌≡◌, ℕ, ◌+◌, ◌<◌, length};
ghost use Rattle.fed_wires.specs.Board.{word_count};
ghost use Rattle.fed_wires.specs.Seat.{IsOwner, IsReader};

use fed_wires::{AnyMessage, Board, CAPACITY, Credits, ReceiveEnd, Received, Seat, SendEnd, wire};
use std::alloc::Global;
use std::process::Abort;
use std::sync::Wait;
use std::test::*;
use std::thread::{Threads, join};

// More than a wire holds.
const COUNT: u64 = 3000;

// Waits until the wire has room for a message.
fn wait_for_room<R: Wait>(rt: &R, end: &mut SendEnd<u64, AnyMessage>)
    ensures { 0 < end.new.room }
{
    for _ in rt.forever() {
        if end.reserve(rt, 1).is_ok() {
            return;
        }
        end.wait(rt);
    }
    unreachable!()
}

fn send_all<R: Wait>(rt: &R, mut end: SendEnd<u64, AnyMessage>) -> u64 {
    for number in 0..COUNT {
        wait_for_room(rt, &mut end);
        if end.send(rt, number).is_err() {
            return number;
        }
    }
    COUNT
}

// How many messages came in order, until one did not or the other end was gone.
fn receive_all<R: Wait>(rt: &R, mut end: ReceiveEnd<u64, AnyMessage>) -> (u64, bool) {
    for number in 0..COUNT {
        if end.receive(rt, true) != Received::Message(number) {
            return (number, false);
        }
    }
    (COUNT, end.receive(rt, true) == Received::Gone && end.gone())
}

#[test]
fn messages_cross_in_order_and_each_once(rt: HostRuntime) -> Result<(), Fail> {
    let (sender, receiver) = wire::<u64, AnyMessage>(rt.alloc())?;
    let (sent, received) = join(&rt, || send_all(&rt, sender), || receive_all(&rt, receiver));
    assert_eq!(rt; sent, COUNT);
    assert_eq!(rt; received, (COUNT, true));
    Ok(())
}

#[test]
fn a_message_comes_back_where_the_other_end_is_gone(rt: HostRuntime) -> Result<(), Fail> {
    let (mut sender, mut receiver) = wire::<u64, AnyMessage>(rt.alloc())?;
    assert_eq!(rt; receiver.receive(&rt, false), Received::Empty);
    assert_eq!(rt; sender.send(&rt, 7), Ok(()));
    sender.compare(&mut receiver);
    assert_eq!(rt; receiver.receive(&rt, false), Received::Message(7));
    let _received = receiver.finish();
    assert!(rt; sender.reserve(&rt, 1).is_ok());
    assert_eq!(rt; sender.send(&rt, 8), Err(8));
    let _sent = sender.finish();

    let (sender, mut receiver) = wire::<u64, AnyMessage>(rt.alloc())?;
    assert!(rt; !receiver.gone());
    let _sent = sender.finish();
    assert_eq!(rt; receiver.receive(&rt, false), Received::Gone);
    assert!(rt; receiver.gone());
    Ok(())
}

// Fills a wire, whose messages are received until half of them are left.
#[test]
fn a_wire_has_room_for_as_many_as_it_does_not_hold(rt: HostRuntime) -> Result<(), Fail> {
    let (mut sender, mut receiver) = wire::<u64, AnyMessage>(rt.alloc())?;
    assert!(rt; sender.reserve(&rt, CAPACITY).is_ok());
    assert!(rt; sender.reserve(&rt, CAPACITY + 1).is_err());
    for number in 0..CAPACITY as u64 {
        assert!(rt; sender.reserve(&rt, 1).is_ok());
        assert_eq!(rt; sender.send(&rt, number), Ok(()));
    }
    assert!(rt; sender.reserve(&rt, 1).is_err());
    for number in 0..CAPACITY as u64 / 2 {
        assert_eq!(rt; receiver.receive(&rt, false), Received::Message(number));
    }
    assert!(rt; sender.reserve(&rt, CAPACITY / 2 + 1).is_err());
    assert!(rt; sender.reserve(&rt, CAPACITY / 2).is_ok());
    Ok(())
}

#[test]
fn who_waits_gets_the_credit_of_what_is_received(rt: HostRuntime) -> Result<(), Fail> {
    let (mut sender, mut receiver) = wire::<u64, AnyMessage>(rt.alloc())?;
    for number in 0..CAPACITY as u64 {
        wait_for_room(&rt, &mut sender);
        assert_eq!(rt; sender.send(&rt, number), Ok(()));
    }
    let mut ends = vec![in rt.alloc(); sender]?;
    let credits = Credits::new(rt.alloc(), &ends)?;
    let (credit, _) = join(&rt, || credits.wait(&rt, 0), || receiver.receive(&rt, true));
    let Some(credit) = credit else {
        panic!(rt; "no credit");
    };
    let sender = &mut ends[0];
    assert!(rt; sender.reserve(&rt, 1).is_err());
    sender.give(credit);
    assert!(rt; sender.reserve(&rt, 1).is_ok());
    // Where the other end is gone nobody waits, and there is room for what comes back.
    drop(receiver);
    assert!(rt; credits.wait(&rt, 0).is_none());
    assert!(rt; sender.reserve(&rt, 2).is_ok());
    assert_eq!(rt; sender.send(&rt, 7), Err(7));
    Ok(())
}

fn raise_all(board: &Board, mut owner: Seat) -> Seat
    requires { (owner.board ≡ board.now.id) × IsOwner owner }
    ensures { (result.board ≡ board.now.id) × IsOwner result }
{
    for count in 1..=COUNT {
        board.raise(&mut owner, count);
    }
    board.raise(&mut owner, 1);
    owner
}

// The greatest value found, and whether the values rose.
fn load_all(board: &Board, mut reader: Seat, word: usize) -> (Seat, u64, bool)
    requires { (reader.board ≡ board.now.id) × IsReader reader × (word < word_count board.now.id) }
    ensures { (result.0.board ≡ board.now.id) × IsReader result.0 }
{
    let mut last = 0;
    let mut rises = true;
    for _ in 0..COUNT {
        let found = board.load(&mut reader, word);
        rises = rises && last <= found;
        last = found;
    }
    (reader, last, rises)
}

// Word 1 is raised in one thread and loaded in another.
fn run<R: Threads + Abort + Sync>(
    rt: &R,
    alloc: Global,
    board: Board,
    first: Seat,
    second: Seat,
    reader: Seat,
) -> Result<(), Fail>
    requires board { (word_count board.id ≡ 2) × (board.readers ≡ 1) }
    requires seats { (first.board ≡ board.id) × (second.board ≡ board.id) × (reader.board ≡ board.id) }
    requires kinds { IsOwner first × IsOwner second × IsReader reader }
{
    let shared = &board;
    let (second, (reader, last, rises)) = join(
        rt,
        || -> Seat
            requires { (second.board ≡ shared.now.id) × IsOwner second }
            ensures { (result.board ≡ shared.entry.now.id) × IsOwner result }
        { raise_all(shared, second) },
        || -> (Seat, u64, bool)
            requires { (reader.board ≡ shared.now.id) × IsReader reader × (word_count shared.now.id ≡ 2) }
            ensures { (result.0.board ≡ shared.entry.now.id) × IsReader result.0 }
        { load_all(shared, reader, 1) },
    );
    let mut reader = reader;
    assert!(rt; rises && last <= COUNT);
    assert_eq!(rt; board.load(&mut reader, 1), COUNT);
    assert_eq!(rt; board.load(&mut reader, 0), 0);
    board.finish(vec![in alloc; first, second, reader]?);
    Ok(())
}

#[test]
fn a_board_shows_no_more_than_was_raised(rt: HostRuntime) -> Result<(), Fail> {
    let (board, mut owners, mut readers) = Board::new(rt.alloc(), 2, 1)?;
    let Some(second) = owners.pop() else {
        unreachable!()
    };
    let Some(first) = owners.pop() else {
        unreachable!()
    };
    let Some(reader) = readers.pop() else {
        unreachable!()
    };
    run(&rt, rt.alloc(), board, first, second, reader)
}
