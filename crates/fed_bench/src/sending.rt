// From events that are offered to transactions that are settled.
use crate::checked::checked;
use crate::stop::Stop;
use fed_dest::{MAX_SERVERS, ServerIndex, ServerSet};
use fed_event::Checked;
use fed_journal::{Journal, JournalFault, Load, Parcel};
use fed_outbox::{Outbox, OutboxFault};
use fed_txn::write;
use std::alloc::Global;
use std::fmt;

const ORIGIN: &str = "a.example";

// The place of the destination whose outbox is fed.
const FED: usize = 1;

/// What was counted.
#[derive(Drop, Default)]
pub(crate) struct Counts {
    addressed: u64,
    transactions: u64,
    bytes: u64,
    settled: u64,
}

impl fmt::Display for Counts {
    fn fmt<W: fmt::Write>(&self, f: &mut fmt::Formatter<W>) -> fmt::Result {
        let Counts {
            addressed,
            transactions,
            bytes,
            settled,
        } = self;
        write!(
            f,
            "addressed {addressed}, transactions {transactions}, bytes {bytes}, settled {settled}"
        )
    }
}

/// Sends so many events.
pub(crate) fn send(alloc: Global, events: u64) -> Result<Counts, Stop> {
    let mut journal = Journal::new(alloc)?;
    let mut outbox = Outbox::new(alloc, ServerIndex::new(FED));
    for number in 0..events {
        offer(alloc, number, &mut journal, &mut outbox)?;
    }
    let addressed = addressed(&journal);
    let (transactions, bytes) = settle_all(alloc, &mut outbox)?;
    Ok(Counts {
        addressed,
        transactions,
        bytes,
        settled: outbox.acked(),
    })
}

// Enters an event for all destinations, and gives the outbox its parcel.
fn offer(
    alloc: Global,
    number: u64,
    journal: &mut Journal,
    outbox: &mut Outbox,
) -> Result<(), Stop> {
    let event = event(alloc, number)?;
    let dests = everyone(alloc)?;
    let Some(place) = journal.place(outbox.dest()) else {
        return Err(Stop::Refused);
    };
    match journal.reserve(1) {
        Ok(()) => {}
        Err(JournalFault::Memory) => return Err(Stop::Memory),
        Err(JournalFault::Limit) => return Err(Stop::Refused),
    }
    let load = Load::Event(event.copy(alloc)?);
    journal.append(event, dests);
    match outbox.accept(Parcel { place, load }) {
        Ok(()) => Ok(()),
        Err((_, OutboxFault::Memory)) => Err(Stop::Memory),
        Err((_, OutboxFault::WrongPlace(_) | OutboxFault::Ended)) => Err(Stop::Refused),
    }
}

// A small message.
fn event(alloc: Global, number: u64) -> Result<Checked, Stop> {
    let text = format!(in alloc;
        "{{\"auth_events\":[],\"content\":{{\"body\":\"message {number}\",\"msgtype\":\"m.text\"}},\"depth\":{number},\"hashes\":{{\"sha256\":\"\"}},\"origin_server_ts\":{number},\"prev_events\":[],\"room_id\":\"!r:a.example\",\"sender\":\"@u:a.example\",\"signatures\":{{\"a.example\":{{\"standin:1\":\"{SIGNATURE}\"}}}},\"type\":\"m.room.message\"}}"
    )?;
    checked(alloc, ORIGIN, &text)
}

const SIGNATURE: &str =
    "AAAAAAAAAAAAAAAAAAAAAAAAAAAAAAAAAAAAAAAAAAAAAAAAAAAAAAAAAAAAAAAAAAAAAAAAAAAAAAAAAAAAAA";

// All destinations.
fn everyone(alloc: Global) -> Result<ServerSet, Stop> {
    let mut servers = Vec::with_capacity(alloc, MAX_SERVERS)?;
    for place in 0..MAX_SERVERS {
        servers.push(ServerIndex::new(place))?;
    }
    ServerSet::rising(servers).ok_or(Stop::Refused)
}

// How many events are addressed to all destinations together, by going over them.
fn addressed(journal: &Journal) -> u64 {
    let mut count = 0u64;
    for place in 0..MAX_SERVERS {
        for _event in journal.addressed(ServerIndex::new(place)) {
            count = count.saturating_add(1);
        }
    }
    count
}

// Cuts, writes and settles until nothing waits: how many transactions, and how many bytes.
fn settle_all(alloc: Global, outbox: &mut Outbox) -> Result<(u64, u64), Stop> {
    let mut transactions = 0u64;
    let mut bytes = 0u64;
    for now in 1..=1_000_000 {
        let (number, body) = match outbox.cut(now) {
            Some(transaction) => (transaction.number, write(alloc, &transaction, ORIGIN)?),
            None => break,
        };
        transactions = transactions.saturating_add(1);
        bytes = bytes.saturating_add(body.len() as u64);
        outbox.settle(number, 200, now);
    }
    Ok((transactions, bytes))
}
