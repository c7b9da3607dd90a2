// Counts by name, by which threads wait for one another.
use std::alloc::Global;
use std::collections::BTreeMap;
use std::sync::{Mutex, Wait};
use std::thread;
use std::time::{Clock, Duration};

// How often a count is looked at, at most, by one who waits for it, and after how many microseconds again.
const MOST_LOOKS: u64 = 100_000_000;

const BETWEEN: u64 = 50;

/// Counts by name, by which threads wait for one another. One that was never raised is 0.
#[derive(Drop)]
pub(crate) struct Counts {
    counts: Mutex<BTreeMap<String, u64>>,
}

impl Counts {
    pub(crate) fn new(alloc: Global) -> Counts {
        Counts {
            counts: Mutex::new(BTreeMap::new(alloc)),
        }
    }

    /// Raises a count by one.
    pub(crate) fn raise<R: Wait>(&self, rt: &R, alloc: Global, name: &str) {
        let mut guard = self.counts.lock(rt);
        let counts = &mut *guard;
        if let Some(count) = counts.get_mut(name) {
            *count = count.saturating_add(1);
            return;
        }
        if let Ok(name) = String::from_str(alloc, name) {
            let _ = counts.insert(name, 1);
        }
    }

    /// What a count is.
    pub(crate) fn count<R: Wait>(&self, rt: &R, name: &str) -> u64 {
        let counts = self.counts.lock(rt);
        counts.get(name).copied().unwrap_or(0)
    }

    /// Whether a count is so much within a hundred million looks.
    pub(crate) fn waits_for<R: Wait + Clock>(&self, rt: &R, name: &str, least: u64) -> bool {
        for _ in 0..MOST_LOOKS {
            if self.count(rt, name) >= least {
                return true;
            }
            thread::sleep(rt, Duration::from_micros(BETWEEN));
        }
        false
    }
}
