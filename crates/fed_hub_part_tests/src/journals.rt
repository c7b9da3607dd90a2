// Small runs of what threads share.
ghost use Rattle.std.specs.Prelude.{◌≡◌, ◌<◌, length, IfOk, IfSome};
ghost use Rattle.fed_hub_state.specs.Spreading.{wires_of, AreUnused};
ghost use Rattle.std.specs.Prelude.{None};
ghost use Rattle.fed_journal.specs.Edu.{edu_fault_of};
ghost use Rattle.fed_journal.specs.declared.parcel.Load.TheVariants.{Edu};

use fed_dest::{ServerIndex, ServerSet};
use fed_hub_state::{
    ClientToken, CloseFault, EnterFault, InPlace, Naming, SendingJournal, Unplaced, sections,
};
use fed_journal::{Load, Parcel, edu_fault};
use fed_json::{Json, read};
use fed_wires::{CAPACITY, Credits, ReceiveEnd, Received, SendEnd, wire};
use std::alloc::Global;
use std::marker::Brand;
use std::process::Abort;
use std::sync::ledger::Blank;
use std::sync::{Mutex, Wait};
use std::test::*;

// An ephemeral data unit without a fault.
fn typing(alloc: Global) -> Option<Json>
    ensures { IfSome result (λ edu. edu_fault_of edu ≡ None) }
{
    let edu = read(alloc, b"{\"content\":{},\"edu_type\":\"m.typing\"}").ok()?;
    match edu_fault(alloc, &edu) {
        Ok(None) => Some(edu),
        Ok(Some(_)) | Err(_) => None,
    }
}

// The load of one for a server.
fn unplaced(edu: &Json, dest: ServerIndex) -> Option<Unplaced>
    ensures { IfSome result (λ u. (u.dest ≡ dest) × (u.load ≡ Edu edu.now)) }
{
    let load = Load::Edu(edu.copy().ok()?);
    Some(Unplaced { dest, load })
}

// Offers one to the servers at places 1 and 2, and tells its number, or why it is not entered; or nothing, where memory runs out before.
fn offer<N: Naming, R: Wait>(
    rt: &R,
    alloc: Global,
    journal: &Mutex<SendingJournal<N>>,
    client: &mut ClientToken<N>,
) -> Option<Result<u64, EnterFault>>
    requires client { 0 < client.old.parts }
    requires servers { length N.wires ≡ 3 }
    ensures { client.new.parts ≡ client.old.parts }
{
    let edu = typing(alloc)?;
    let first = ServerIndex::new(1);
    let second = ServerIndex::new(2);
    let dests = ServerSet::of(Vec::from_slice(alloc, &[first, second]).ok()?);
    let mut loads = Vec::with_capacity(alloc, 2).ok()?;
    loads.push(unplaced(&edu, first)?).ok()?;
    loads.push(unplaced(&edu, second)?).ok()?;
    let mut journal = journal.lock(rt);
    Some(sections::offer_edu(rt, &mut journal, client, edu, dests, loads))
}

// The same, and the number alone where it is entered.
fn number_of<N: Naming, R: Wait>(
    rt: &R,
    alloc: Global,
    journal: &Mutex<SendingJournal<N>>,
    client: &mut ClientToken<N>,
) -> Option<u64>
    requires client { 0 < client.old.parts }
    requires servers { length N.wires ≡ 3 }
    ensures { client.new.parts ≡ client.old.parts }
{
    offer(rt, alloc, journal, client)?.ok()
}

// Two clients offer in turn, and between two of their offers the outbox for the server at place 1 is closed.
fn run<N: Naming, R: Wait + Abort>(
    rt: &R,
    alloc: Global,
    ends: Vec<SendEnd<Parcel, InPlace>>,
    events: Blank,
    edus: Blank,
) -> Result<(), Fail>
    requires wires { (wires_of ends.items ≡ N.wires) × AreUnused ends.items × (length N.wires ≡ 3) }
    requires events { (events.name ≡ N.events) × (events.parts ≡ N.parts) }
    requires edus { (edus.name ≡ N.edus) × (edus.parts ≡ N.parts) }
    requires clients { N.parts ≡ 2 }
{
    let (journal, mut one) = SendingJournal::<N>::new(alloc, ends, events, edus)?;
    let mut two = one.split();
    let shared = Mutex::new(journal);
    offer_in_turn(rt, alloc, &shared, &mut one, &mut two)?;
    one.merge(two);
    let mut journal = shared.lock(rt);
    journal.all_told(&mut one);
    assert_eq!(rt; journal.entries().len(), 4);
    Ok(())
}

fn offer_in_turn<N: Naming, R: Wait + Abort>(
    rt: &R,
    alloc: Global,
    journal: &Mutex<SendingJournal<N>>,
    one: &mut ClientToken<N>,
    two: &mut ClientToken<N>,
) -> Result<(), Fail>
    requires one { 0 < one.old.parts }
    requires two { 0 < two.old.parts }
    requires servers { length N.wires ≡ 3 }
    ensures one { one.new.parts ≡ one.old.parts }
    ensures two { two.new.parts ≡ two.old.parts }
{
    let first = ServerIndex::new(1);
    assert_eq!(rt; number_of(rt, alloc, journal, one), Some(1));
    assert_eq!(rt; number_of(rt, alloc, journal, two), Some(2));
    let was_open = sections::close(rt, &mut journal.lock(rt), first);
    assert_eq!(rt; was_open.ok(), Some(true));
    let was_open = sections::close(rt, &mut journal.lock(rt), first);
    assert_eq!(rt; was_open.ok(), Some(false));
    assert_eq!(rt; number_of(rt, alloc, journal, one), Some(3));
    Ok(())
}

// How many parcels came with the numbers from 1 on, and whether the end came behind them.
fn count_all<R: Wait>(rt: &R, mut end: ReceiveEnd<Parcel, InPlace>) -> (u64, bool) {
    for count in 0..u64::MAX {
        match end.receive(rt, false) {
            Received::Message(parcel) => match parcel.load {
                Load::Edu(_) if parcel.place.number() == count.saturating_add(1) => {}
                Load::End => return (count, true),
                Load::Edu(_) | Load::Event(_) => return (count, false),
            },
            Received::Empty | Received::Gone => return (count, false),
        }
    }
    (u64::MAX, false)
}

// Offers until the wires to the servers at places 1 and 2 are full. Nothing goes over the one to place 1 then, until a parcel was received there.
fn fill<N: Naming, R: Wait + Abort>(
    rt: &R,
    alloc: Global,
    ends: Vec<SendEnd<Parcel, InPlace>>,
    to_first: &mut ReceiveEnd<Parcel, InPlace>,
    events: Blank,
    edus: Blank,
) -> Result<(), Fail>
    requires wires { (wires_of ends.items ≡ N.wires) × AreUnused ends.items × (length N.wires ≡ 3) × (N.own ≡ 0) }
    requires events { (events.name ≡ N.events) × (events.parts ≡ N.parts) }
    requires edus { (edus.name ≡ N.edus) × (edus.parts ≡ N.parts) }
    requires clients { N.parts ≡ 2 }
{
    let credits = Credits::new(alloc, &ends)?;
    let (journal, mut client) = SendingJournal::<N>::new(alloc, ends, events, edus)?;
    let shared = &Mutex::new(journal);
    let own = ServerIndex::new(0);
    let first = ServerIndex::new(1);
    for number in 1..=CAPACITY as u64 {
        assert_eq!(rt; number_of(rt, alloc, shared, &mut client), Some(number));
    }
    let offered = offer(rt, alloc, shared, &mut client);
    assert!(rt; matches!(&offered, Some(Err(EnterFault::Full(full))) if full.dest == first));
    let closed = sections::close(rt, &mut shared.lock(rt), first);
    assert!(rt; matches!(&closed, Err(CloseFault::Full(full)) if full.dest == first));
    let shut = sections::shut_down(rt, &mut shared.lock(rt), own);
    assert!(rt; matches!(&shut, Err(CloseFault::Full(full)) if full.dest == first));
    assert_eq!(rt; shared.lock(rt).entries().len(), CAPACITY);
    assert!(rt; matches!(to_first.receive(rt, false), Received::Message(_)));
    let Some(credit) = credits.wait(rt, 1) else {
        panic!(rt; "no credit");
    };
    let mut journal = shared.lock(rt);
    journal.give(credit);
    assert_eq!(rt; sections::close(rt, &mut journal, first).ok(), Some(true));
    Ok(())
}

#[test]
fn what_is_offered_goes_over_the_wires(rt: HostRuntime) -> Result<(), Fail> {
    let alloc = rt.alloc();
    let (own, _) = wire(alloc)?;
    let (first, to_first) = wire(alloc)?;
    let (second, to_second) = wire(alloc)?;
    let ends = vec![in alloc; own, first, second]?;
    run::<Brand, _>(&rt, alloc, ends, Blank::new(2), Blank::new(2))?;
    assert_eq!(rt; count_all(&rt, to_first), (2, true));
    assert_eq!(rt; count_all(&rt, to_second), (3, false));
    Ok(())
}

#[test]
fn a_full_wire_stops_nobody_who_holds_the_journal(rt: HostRuntime) -> Result<(), Fail> {
    let alloc = rt.alloc();
    let (own, _) = wire(alloc)?;
    let (first, mut to_first) = wire(alloc)?;
    let (second, to_second) = wire(alloc)?;
    let ends = vec![in alloc; own, first, second]?;
    fill::<Brand, _>(
        &rt,
        alloc,
        ends,
        &mut to_first,
        Blank::new(2),
        Blank::new(2),
    )?;
    let capacity = CAPACITY as u64;
    assert_eq!(rt; count_all(&rt, to_second), (capacity, false));
    Ok(())
}
