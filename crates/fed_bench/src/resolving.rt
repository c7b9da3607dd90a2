// From several states of a room to the one that they resolve to.
use crate::dump::Dump;
use crate::stop::Stop;
use fed_room_contract::State;
use sha2::{Digest, Sha256};
use std::alloc::Global;
use std::fs;
use std::time::Instant;

// How often the states are resolved.
const TIMES: usize = 5;

/// The hash of the ids of the resolved state, which are sorted and each end with a line feed, and the least time in microseconds, of the
/// states of a file.
pub(crate) fn resolve(rt: &HostRuntime, path: &str) -> Result<String, Stop> {
    let alloc = rt.alloc();
    let dump = Dump::read(alloc, fs::read_to_string(rt, path)?.as_str())?;
    let mut least = u128::MAX;
    for _ in 0..TIMES {
        least = least.min(time_of(rt, &dump)?);
    }
    let hash = hash_of(alloc, &resolved(alloc, &dump)?)?;
    Ok(format!(in alloc; "{hash} {least}")?)
}

// How many microseconds it takes to resolve the states.
fn time_of(rt: &HostRuntime, dump: &Dump) -> Result<u128, Stop> {
    let start = Instant::now(rt)?;
    let state = resolved(rt.alloc(), dump)?;
    let time = start.elapsed(rt)?.as_micros();
    drop(state);
    Ok(time)
}

fn resolved(alloc: Global, dump: &Dump) -> Result<State, Stop> {
    Ok(fed_resolve::resolve(alloc, dump.graph(), dump.states())?)
}

// The hash of the ids of a state, in hexadecimal digits.
fn hash_of(alloc: Global, state: &State) -> Result<String, Stop> {
    let mut ids = Vec::new(alloc);
    for entry in &state.entries(alloc)? {
        ids.push(entry.id.as_str())?;
    }
    ids.sort()?;
    let text = lines_of(alloc, &ids)?;
    Ok(hex::encode(alloc, &Sha256::digest(text.as_bytes()))?)
}

fn lines_of(alloc: Global, ids: &[&str]) -> Result<String, Stop> {
    let mut text = String::new(alloc);
    for id in ids {
        text.push_str(id)?;
        text.push('\n')?;
    }
    Ok(text)
}
