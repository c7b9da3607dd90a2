// Events listed one after another, by the set of those that may be listed.
ghost use Rattle.std.specs.Prelude.{◌≡◌, ◌<◌, ℕ, Bool, [], true, All, IfOk, IfSome, OnOk, length};
ghost use Rattle.fed_resolve.specs.ChainParts.{is_marked};
ghost use Rattle.fed_resolve.specs.OrderParts.{IsWithin, next_place, candidates_from};
ghost use Rattle.fed_resolve.specs.ReadyParts.{AreKept, AreHeld, IsReadySet, none_left, is_left_at, is_left_waiting, or_left};

use crate::order::Candidate;
use fed_json::NoMemory;
use std::alloc::Global;
use std::collections::BTreeSet;
use std::mem::replace;

/// The places of some events, which are below a count, in order: of those that are not listed, each time the first that may be listed.
pub(crate) fn in_ready_order<R: Ord + Copy>(
    alloc: Global,
    count: usize,
    candidates: &[Candidate<R>],
) -> Result<Vec<usize>, NoMemory>
    requires { All (IsWithin count) candidates.now }
    ensures { IfOk result (λ places. places.items ≡ candidates_from R.cmp candidates.now (length candidates.now) []) }
{
    let mut listed = Vec::new(alloc);
    let mut is_listed = vec![in alloc; false; count]?;
    let mut ready = ReadySet::new(alloc, candidates, &is_listed)?;
    for _ in 0..candidates.len() {
        let Some(place) = ready.pop(candidates, &is_listed) else {
            break;
        };
        listed.push(place)?;
        is_listed[place] = true;
        ready.wake(alloc, place, candidates, &is_listed)?;
    }
    Ok(listed)
}

// An event that may be listed, by its rank and the index at which it stands. What is smaller comes first.
#[derive(Clone, Copy, PartialEq, Eq, PartialOrd, Ord)]
pub(crate) struct Ready<R> {
    pub rank: R,
    pub index: usize,
}

// Of some events those that may be listed, and for each place those that wait for the event there, by their indices. Each that is not
// listed is among the ones or the others.
#[derive(Drop)]
pub(crate) struct ReadySet<R: Ord> {
    pub first: BTreeSet<Ready<R>>,
    pub waiting: Vec<Vec<usize>>,
    // How many at the front of what each event comes after are known to be listed.
    pub fronts: Vec<usize>,
}

impl<R: Ord + Copy> ReadySet<R> {
    // Of these events, of which those at the places that are marked are listed.
    fn new(
        alloc: Global,
        candidates: &[Candidate<R>],
        is_listed: &[bool],
    ) -> Result<ReadySet<R>, NoMemory>
        requires { All (IsWithin (length is_listed.now)) candidates.now }
        ensures { IfOk result (IsReadySet none_left is_listed.now candidates.now) }
    {
        let mut ready = ReadySet {
            first: BTreeSet::new(alloc),
            waiting: empty_lists(alloc, is_listed.len())?,
            fronts: vec![in alloc; 0; candidates.len()]?,
        };
        for index in 0..candidates.len() {
            ready.add(candidates, index, is_listed)?;
        }
        Ok(ready)
    }

    // Takes out the first of those that may be listed, and tells its place.
    fn pop(&mut self, candidates: &[Candidate<R>], is_listed: &[bool]) -> Option<usize>
        requires within { All (IsWithin (length is_listed.now)) candidates.now }
        requires ready { IsReadySet none_left is_listed.now candidates.now self.old }
        ensures first { result ≡ next_place R.cmp (is_marked is_listed.now) candidates.now }
        ensures ready { IfSome result (λ place. IsReadySet (is_left_at candidates.now place) is_listed.now candidates.now self.new) }
    {
        while let Some(first) = self.first.pop_first() {
            let place = candidates[first.index].place;
            if !is_listed[place] {
                return Some(place);
            }
        }
        None
    }

    // Looks again at the events that wait for the one at a place, which is listed now.
    fn wake(
        &mut self,
        alloc: Global,
        place: usize,
        candidates: &[Candidate<R>],
        is_listed: &[bool],
    ) -> Result<(), NoMemory>
        requires within { All (IsWithin (length is_listed.now)) candidates.now }
        requires place { place < length is_listed.now }
        requires listed { is_marked is_listed.now place ≡ true }
        requires ready { IsReadySet (is_left_waiting self.old place) is_listed.now candidates.now self.old }
        ensures { OnOk result (IsReadySet none_left is_listed.now candidates.now self.new) }
    {
        let woken = replace(&mut self.waiting[place], Vec::new(alloc));
        for index in woken {
            self.add(candidates, index, is_listed)?;
        }
        Ok(())
    }

    // Puts an event among those that may be listed, or among those that wait for one that is not listed.
    fn add(
        &mut self,
        candidates: &[Candidate<R>],
        index: usize,
        is_listed: &[bool],
    ) -> Result<(), NoMemory>
        requires within { All (IsWithin (length is_listed.now)) candidates.now }
        requires index { index < length candidates.now }
        requires kept { AreKept is_listed.now candidates.now self.old }
        ensures kept { OnOk result (AreKept is_listed.now candidates.now self.new) }
        ensures held { OnOk result ((is_left : ℕ → Bool) → AreHeld (or_left index is_left) is_listed.now candidates.now self.old
            → AreHeld is_left is_listed.now candidates.now self.new) }
    {
        let one = &candidates[index];
        let front = one.listed_front(is_listed, self.fronts[index]);
        self.fronts[index] = front;
        if front == one.after.len() {
            self.first.insert(Ready {
                rank: one.rank,
                index,
            })?;
        } else {
            self.waiting[one.after[front]].push(index)?;
        }
        Ok(())
    }
}

// So many lists of nothing.
fn empty_lists(alloc: Global, count: usize) -> Result<Vec<Vec<usize>>, NoMemory>
    ensures long { IfOk result (λ lists. length lists.items ≡ count) }
    ensures empty { IfOk result (λ lists. All (λ list. list.items ≡ []) lists.items) }
{
    let mut lists = Vec::with_capacity(alloc, count)?;
    for _ in 0..count {
        lists.push(Vec::new(alloc))?;
    }
    Ok(lists)
}
