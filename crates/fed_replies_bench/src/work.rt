// Keeping replies and getting them.
use crate::replies::reply;
use crate::stop::Stop;
use fed_replies::ReplyStore;
use std::time::Instant;

/// The origin of all transactions.
const ORIGIN: &str = "a.example";

/// How many replies were got again, and the nanoseconds that keeping and getting took.
#[derive(Drop)]
pub(crate) struct Done {
    pub(crate) kept: u64,
    pub(crate) keeping: u128,
    pub(crate) getting: u128,
}

/// Keeps so many replies and gets each again.
pub(crate) fn work<S: ReplyStore + Drop>(
    rt: &HostRuntime,
    mut store: S,
    failed: bool,
    replies: u64,
) -> Result<Done, Stop> {
    let alloc = rt.alloc();
    let mut keeping = 0u128;
    for number in 0..replies {
        keeping = keeping.saturating_add(keep(rt, &mut store, number, failed)?);
    }
    let mut getting = 0u128;
    let mut kept = 0u64;
    for number in 0..replies {
        let txn = format!(in alloc; "{number}")?;
        let start = Instant::now(rt)?;
        let found = store.get(alloc, ORIGIN, &txn)?;
        getting = getting.saturating_add(start.elapsed(rt)?.as_nanos());
        kept = kept.saturating_add(u64::from(found.is_some()));
    }
    Ok(Done {
        kept,
        keeping,
        getting,
    })
}

// Keeps the reply of a number: the nanoseconds that it takes.
fn keep<S: ReplyStore>(
    rt: &HostRuntime,
    store: &mut S,
    number: u64,
    failed: bool,
) -> Result<u128, Stop> {
    let alloc = rt.alloc();
    let reply = reply(alloc, number, failed)?;
    let txn = format!(in alloc; "{number}")?;
    if store.get(alloc, ORIGIN, &txn)?.is_some() {
        return Ok(0);
    }
    let start = Instant::now(rt)?;
    store.keep(alloc, ORIGIN, &txn, &reply)?;
    Ok(start.elapsed(rt)?.as_nanos())
}
