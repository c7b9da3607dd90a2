// Threads that begin together, or not at all.
use std::sync::Wait;
use std::sync::atomic::{AtomicU64, Ordering};
use std::thread;
use std::time::{Clock, Duration};

// How often a thread looks whether all others are there, with a millisecond between two looks.
const LOOKS: u32 = 5_000;

// It is added to the count of the threads that are there where the rest is not waited for any more.
const GIVEN_UP: u64 = 1 << 32;

/// Threads that begin together, or not at all.
///
/// Where the system makes no more threads, the toolchain's `join` and `for_each_mut` do in one thread what was to be done in two, the second thing
/// behind the first. Where the first waits for what the second does, it would wait for good.
#[derive(Drop)]
pub struct Muster {
    count: u64,
    there: AtomicU64,
}

impl Muster {
    /// Of so many threads, of which none is there.
    pub fn new(count: u32) -> Muster {
        Muster {
            count: count as u64,
            there: AtomicU64::new(0),
        }
    }

    /// Counts the calling thread, waits until all are there, and tells whether they are. After five seconds it is given up; what is told is the same
    /// for all of them.
    pub fn begins<R: Wait + Clock>(&self, rt: &R) -> bool {
        self.there.fetch_add(1, Ordering::SeqCst);
        for _ in 0..LOOKS {
            if let Some(begins) = self.told() {
                return begins;
            }
            thread::sleep(rt, Duration::from_millis(1));
        }
        self.gives_up(rt)
    }

    /// Whether all were there. Asked when all calls of `begins` have returned.
    pub fn is_complete(&self) -> bool {
        self.told() == Some(true)
    }

    // Whether all are there, or some are given up; `None` where neither is so yet.
    fn told(&self) -> Option<bool> {
        let there = self.there.load(Ordering::SeqCst);
        if there >= GIVEN_UP {
            return Some(false);
        }
        (there >= self.count).then_some(true)
    }

    // Gives up those that are not there, unless all are now.
    fn gives_up<R: Wait>(&self, rt: &R) -> bool {
        for _ in rt.forever() {
            if let Some(begins) = self.told() {
                return begins;
            }
            let there = self.there.load(Ordering::SeqCst);
            if there < self.count {
                let given_up = there | GIVEN_UP;
                let order = Ordering::SeqCst;
                let _ = self.there.compare_exchange(there, given_up, order, order);
            }
        }
        unreachable!()
    }
}
