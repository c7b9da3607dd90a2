//! Events of a room as a JSON array gives them, each behind its auth events.
ghost use Rattle.std.specs.Prelude.{◌≡◌, ◌≢◌, None, Ok, Err, IsSome, IfOk, IfErr, OnOk};
ghost use Rattle.fed_event.specs.Event.{event_in};
ghost use Rattle.fed_event.specs.Tests.{first_fault_of};
ghost use Rattle.fed_json.specs.Items.{left};
ghost use Rattle.fed_json.specs.JsonRef.{seen};
ghost use Rattle.fed_c.specs.History.{history_in, history_of, is_among, is_listed, verdict_by};
ghost use Rattle.fed_c.specs.HistoryParts.{checked_in, with_event};
ghost use Rattle.fed_c.specs.Values.{value_of};
ghost use Rattle.fed_c.specs.declared.status.Status.TheVariants.{Memory, BadEvents};

use crate::status::Status;
use crate::values::value;
use fed_event::{CheckFault, Checked, Pdu, PduFault, Trusting, Version, check_in};
use fed_json::{Items, Json, JsonRef};
use fed_room_contract::{Graph, Rule, Verdict};
use std::alloc::Global;

/// The events of an array, of a room of this version, stored in their order: those whose ids `rejected` lists as rejected ones, the others as accepted ones.
///
/// # Errors
///
/// `NotJson` and `NotCanonical`; `BadEvents` where the value is no array of events, each signed by its sender's server, as far as can be
/// seen without keys, each another one than those before it, and each one whose auth events are among those. `Memory` where memory ran out.
pub(crate) fn history(
    alloc: Global,
    version: Version,
    events: &[u8],
    rejected: &Json,
) -> Result<Graph, Status>
    ensures ok { IfOk result (λ graph. history_in version rejected.now (value_of events.now) ≡ Ok graph.stored) }
    ensures fault { IfErr result (λ status. status ≢ Memory → history_in version rejected.now (value_of events.now) ≡ Err status) }
{
    let json = value(alloc, events)?;
    let events = json.items().ok_or(Status::BadEvents)?;
    history_of(alloc, version, events, rejected)
}

// The events of an array, in their order.
fn history_of(
    alloc: Global,
    version: Version,
    events: Items<'_>,
    rejected: &Json,
) -> Result<Graph, Status>
    ensures ok { IfOk result (λ graph. history_of version rejected.now (left events.entry) ≡ Ok graph.stored) }
    ensures fault { IfErr result (λ status. status ≢ Memory → history_of version rejected.now (left events.entry) ≡ Err status) }
{
    let mut graph = Graph::new(alloc);
    for value in events {
        let event = checked_in(alloc, version, value)?;
        store(alloc, &mut graph, event, rejected)?;
    }
    Ok(graph)
}

/// The event that a value is in a room of this version, as far as its content hash leaves it.
///
/// # Errors
///
/// `BadEvents` where it fails a test, or has no signature of its sender's server. `Memory` where memory ran out.
pub(crate) fn checked_in(
    alloc: Global,
    version: Version,
    value: JsonRef<'_>,
) -> Result<Checked, Status>
    ensures ok { IfOk result (λ event. checked_in version (seen value.entry) ≡ Ok event) }
    ensures fault { IfErr result (λ status. status ≢ Memory → checked_in version (seen value.entry) ≡ Err status) }
{
    let event = tested(alloc, version, value.to_json()?)?;
    match check_in(alloc, event, &Trusting::new(String::new(alloc))) {
        Ok(event) => Ok(event),
        Err(CheckFault::Memory) => Err(Status::Memory),
        Err(CheckFault::BadSignature) => Err(Status::BadEvents),
    }
}

// The event that passes the tests.
fn tested(alloc: Global, version: Version, json: Json) -> Result<Pdu, Status>
    ensures ok { IfOk result (λ event. event ≡ event_in version json) }
    ensures passes { IfOk result (λ _. first_fault_of json ≡ None) }
    ensures fails { IfErr result (λ status. status ≢ Memory → (status ≡ BadEvents) × IsSome (first_fault_of json)) }
{
    match Pdu::of_json(alloc, version, json) {
        Ok(event) => Ok(event),
        Err(PduFault::Memory) => Err(Status::Memory),
        Err(_) => Err(Status::BadEvents),
    }
}

// Stores an event that comes next.
#[tactic(auto, unfolding(crate::specs::History::comes_next))]
fn store(alloc: Global, graph: &mut Graph, event: Checked, rejected: &Json) -> Result<(), Status>
    ensures ok { OnOk result (with_event rejected.now graph.old.stored event ≡ Ok graph.new.stored) }
    ensures fault { IfErr result (λ status. status ≢ Memory → with_event rejected.now graph.old.stored event ≡ Err status) }
{
    let id = event.event().id().as_str();
    if graph.contains(id) {
        return Err(Status::BadEvents);
    }
    if !graph.has_auths(event.event()) {
        return Err(Status::BadEvents);
    }
    let verdict = verdict_by(rejected, id);
    Ok(graph.push(alloc, event, verdict)?)
}

/// The verdict on the event of this id, where the rejected ones are listed.
pub(crate) fn verdict_by(rejected: &Json, id: &str) -> Verdict
    ensures { result ≡ verdict_by rejected.now id.now }
{
    if is_listed(rejected, id) {
        Verdict::Rejected(Rule::whole(0))
    } else {
        Verdict::Accepted
    }
}

// Whether the id stands in this array.
fn is_listed(list: &Json, id: &str) -> bool
    ensures { result ≡ is_listed list.now id.now }
{
    match list.items() {
        Some(items) => is_among(items, id),
        None => false,
    }
}

// Whether the id is one of these.
fn is_among(items: Items<'_>, id: &str) -> bool
    ensures { result ≡ is_among (left items.entry) id.now }
{
    for item in items {
        if item.text() == Some(id) {
            return true;
        }
    }
    false
}
