// Events listed one after another: each time the first of those that may be listed.
ghost use Rattle.std.specs.Prelude.{◌≡◌, ◌<◌, ◌==◌, [], false, All, IfOk, IfSome, length, option_map, slice_get, vec_len};
ghost use Rattle.std.specs.List.{list_all};
ghost use Rattle.fed_resolve.specs.ChainParts.{is_marked};
ghost use Rattle.fed_resolve.specs.OrderParts.{IsWithin, IsListedFront, AreListedFronts, earlier_candidate, next_place, candidates_from};

use crate::ready::in_ready_order;
use fed_event::EventId;
use fed_json::NoMemory;
use std::alloc::Global;

// What an order compares of an event: a weight, then when it was made, then its id. What is smaller comes first.
#[derive(Clone, Copy, PartialEq, Eq, PartialOrd, Ord)]
pub(crate) struct Rank<'a, W> {
    pub weight: W,
    pub time: i64,
    pub id: &'a EventId,
}

// An event that waits to be listed: its place, its rank, and the places of the events that it comes after.
#[derive(Drop)]
pub(crate) struct Candidate<R> {
    pub place: usize,
    pub rank: R,
    pub after: Vec<usize>,
}

impl<R> Candidate<R> {
    // How many at the front of what it comes after are listed, where so many are known to be.
    pub(crate) fn listed_front(&self, is_listed: &[bool], known: usize) -> usize
        requires within { All (λ place. place < length is_listed.now) self.now.after.items }
        requires known { IsListedFront is_listed.now self.now.after.items known }
        ensures front { IsListedFront is_listed.now self.now.after.items result }
        ensures whole { (result == vec_len self.now.after) ≡ list_all (is_marked is_listed.now) self.now.after.items }
        ensures next { IfSome (slice_get self.now.after.items result) (λ place. is_marked is_listed.now place ≡ false) }
    {
        for index in known..self.after.len() {
            if !is_listed[self.after[index]] {
                return index;
            }
        }
        self.after.len()
    }
}

// How those that come next are found: each time among all that are left, or by the set of those that may be listed.
#[derive(Clone, Copy)]
pub(crate) enum Listing {
    Plain,
    Ready,
}

// The places of some events, which are below a count, in order: of those that are not listed, each time the first that may be listed.
pub(crate) fn in_order<R: Ord + Copy>(
    alloc: Global,
    listing: Listing,
    count: usize,
    candidates: &[Candidate<R>],
) -> Result<Vec<usize>, NoMemory>
    requires { All (IsWithin count) candidates.now }
    ensures { IfOk result (λ places. places.items ≡ candidates_from R.cmp candidates.now (length candidates.now) []) }
{
    match listing {
        Listing::Plain => in_plain_order(alloc, count, candidates),
        Listing::Ready => in_ready_order(alloc, count, candidates),
    }
}

// The same by looking at all that are left, which takes time in proportion to the square of how many they are.
fn in_plain_order<R: Ord>(
    alloc: Global,
    count: usize,
    candidates: &[Candidate<R>],
) -> Result<Vec<usize>, NoMemory>
    requires { All (IsWithin count) candidates.now }
    ensures { IfOk result (λ places. places.items ≡ candidates_from R.cmp candidates.now (length candidates.now) []) }
{
    let mut listed = Vec::new(alloc);
    let mut is_listed = vec![in alloc; false; count]?;
    let mut fronts = vec![in alloc; 0; candidates.len()]?;
    for _ in 0..candidates.len() {
        let Some(place) = next_place(candidates, &is_listed, &mut fronts) else {
            break;
        };
        listed.push(place)?;
        is_listed[place] = true;
    }
    Ok(listed)
}

// The place of the first of those that are not listed, but all that they come after. `fronts` has, for each, how many at the front of
// what it comes after are known to be listed, so that these are not looked at again.
fn next_place<R: Ord>(
    candidates: &[Candidate<R>],
    is_listed: &[bool],
    fronts: &mut [usize],
) -> Option<usize>
    requires within { All (IsWithin (length is_listed.now)) candidates.now }
    requires fronts { AreListedFronts is_listed.now candidates.now fronts.old }
    ensures first { result ≡ next_place R.cmp (is_marked is_listed.now) candidates.now }
    ensures fronts { AreListedFronts is_listed.now candidates.now fronts.new }
{
    let mut first = None;
    for index in (0..candidates.len()).rev() {
        let one = &candidates[index];
        if !is_listed[one.place] {
            fronts[index] = one.listed_front(is_listed, fronts[index]);
            if fronts[index] == one.after.len() {
                first = Some(earlier(one, first));
            }
        }
    }
    Some(first?.place)
}

// The one of two events that comes first.
fn earlier<'a, R: Ord>(one: &'a Candidate<R>, other: Option<&'a Candidate<R>>) -> &'a Candidate<R>
    ensures { result.now ≡ earlier_candidate R.cmp one.now (option_map (λ c. c.now) other.entry) }
{
    match other {
        Some(other) if other.rank.cmp(&one.rank).is_lt() => other,
        _ => one,
    }
}
