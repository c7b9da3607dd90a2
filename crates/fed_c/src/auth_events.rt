//! Whether an event is allowed by the auth events that it names.
ghost use Rattle.std.specs.Prelude.{◌≡◌, ◌≢◌, ◌∷◌, ◌++◌, [], map, option_map, Ok, Err, IfOk, IfErr, OnOk};
ghost use Rattle.fed_event.specs.EventIds.{ids_left};
ghost use Rattle.fed_event.specs.Fields.{auth_events_of};
ghost use Rattle.fed_event.specs.Reading.{read_of};
ghost use Rattle.fed_room_contract.specs.Graph.{stored_at};
ghost use Rattle.fed_c.specs.AuthEvents.{allowed_by_auth, auth_answer, named};
ghost use Rattle.fed_c.specs.Events.{read_or_status};
ghost use Rattle.fed_c.specs.Output.{Gives, IsRefused};
ghost use Rattle.fed_c.specs.RoomVersion.{by_version, version_in};
ghost use Rattle.fed_c.specs.Status.{number_of};
ghost use Rattle.fed_c.specs.Values.{value_of};
ghost use Rattle.fed_c.specs.declared.status.Status.TheVariants.{Memory, BadVersion};

use crate::allowed::rule_numbers;
use crate::ids::ids;
use crate::output::{Answer, give};
use crate::room_version::room_version;
use crate::rule_two::allow_auth_events;
use crate::signers::checked;
use crate::status::Status;
use crate::stored_events::stored_events;
use fed_event::{Checked, EventIds, Pdu};
use fed_json::NoMemory;
use fed_room_contract::{Rule, Stored};
use std::alloc::Global;

/// Whether an event is allowed by the auth events that it names in a room of this version (room versions 10 and 11, "Authorization rules";
/// Server-Server API, "Checks performed on receipt of a PDU", check 4): rule 2, and then the others by the state that these make. The answer is
/// as in `wikzord_allowed`.
///
/// `auth_events` is an array of events, in any order, among which are all that the event names, and `rejected` one of the ids of those that were
/// rejected. What else stands in the two counts for nothing. Whose signatures check is as in `wikzord_allowed`.
///
/// Returns the first of these faults: `BadVersion` where `version` is neither 10 nor 11, for which it needs no memory; of `rejected`, `NotJson`,
/// `NotCanonical` and `BadIds`; of `auth_events`, `NotJson`, `NotCanonical` and `BadEvents`; that of the first test that the event fails, as
/// `wikzord_event_test` does; `NotSigned` where its sender's server has no signature there; `MissingEvents`.
#[unsafe(no_mangle)]
pub extern "C" fn wikzord_allowed_by_auth_events(
    alloc: Global,
    version: u32,
    text: &[u8],
    auth_events: &[u8],
    rejected: &[u8],
    authorised: bool,
    out: &mut [u8],
    needed: &mut usize,
) -> u32
    ensures gives { Gives (by_version version (λ v. auth_answer v (value_of rejected.now) (value_of auth_events.now) (read_or_status (read_of text.now)) authorised)) result
        (record { before = out.old; after = out.new; told_before = needed.old; told = needed.new }) }
    ensures refuses { version_in version ≡ Err BadVersion
        → IsRefused BadVersion result (record { before = out.old; after = out.new; told_before = needed.old; told = needed.new }) }
    ensures only { result ≡ number_of BadVersion → version_in version ≡ Err BadVersion }
{
    let answer = allowed(alloc, version, text, auth_events, rejected, authorised);
    give(answer, out, needed)
}

fn allowed(
    alloc: Global,
    version: u32,
    text: &[u8],
    auth_events: &[u8],
    rejected: &[u8],
    authorised: bool,
) -> Answer
    ensures ok { IfOk result (λ bytes. by_version version (λ v. auth_answer v (value_of rejected.now) (value_of auth_events.now) (read_or_status (read_of text.now)) authorised)
        ≡ Ok bytes.items) }
    ensures fault { IfErr result (λ status. status ≢ Memory
        → by_version version (λ v. auth_answer v (value_of rejected.now) (value_of auth_events.now) (read_or_status (read_of text.now)) authorised) ≡ Err status) }
    ensures refuses { version_in version ≡ Err BadVersion → result ≡ Err BadVersion }
{
    let version = room_version(version)?;
    let rejected = ids(alloc, rejected)?;
    let given = stored_events(alloc, version, auth_events, &rejected)?;
    let event = checked(alloc, version, text, authorised)?;
    let auth = named(alloc, &given, event.event().auth_events())?;
    Ok(rule_numbers(alloc, allowed_by_auth(alloc, &event, &auth)?)?)
}

// Those of these events that have the ids, in the order of the ids.
fn named(alloc: Global, given: &[Stored], ids: EventIds<'_>) -> Result<Vec<Stored>, Status>
    ensures ok { IfOk result (λ auth. named given.now (ids_left ids.entry) ≡ Ok auth.items) }
    ensures fault { IfErr result (λ status. status ≢ Memory → named given.now (ids_left ids.entry) ≡ Err status) }
{
    let mut auth = Vec::new(alloc);
    for id in ids {
        let stored = stored_at(given, id).ok_or(Status::MissingEvents)?;
        add(alloc, &mut auth, stored)?;
    }
    Ok(auth)
}

// The event of this id.
fn stored_at<'a>(given: &'a [Stored], id: &str) -> Option<&'a Stored>
    ensures { option_map (λ stored. stored.now) result ≡ stored_at given.now id.now }
{
    for stored in given {
        if stored.event.event().id().as_str() == id {
            return Some(stored);
        }
    }
    None
}

fn add(alloc: Global, auth: &mut Vec<Stored>, stored: &Stored) -> Result<(), NoMemory>
    ensures { OnOk result (auth.new.items ≡ auth.old.items ++ stored.now ∷ []) }
{
    let event = stored.event.copy(alloc)?;
    auth.push(Stored {
        event,
        verdict: stored.verdict,
    })?;
    Ok(())
}

// Rule 2, and then the others, by the auth events of an event; a create event has none.
fn allowed_by_auth(
    alloc: Global,
    event: &Checked,
    auth: &[Stored],
) -> Result<Result<(), Rule>, NoMemory>
    ensures { IfOk result (λ answer. answer ≡ allowed_by_auth event.now auth.now) }
{
    if event.event().kind() == "m.room.create" {
        return Ok(fed_auth::allowed_by(&[], event));
    }
    match allow_auth_events(event.event(), auth) {
        Ok(()) => Ok(fed_auth::allowed_by(&events_of(alloc, auth)?, event)),
        Err(rule) => Ok(Err(rule)),
    }
}

// The events without their verdicts.
fn events_of(alloc: Global, auth: &[Stored]) -> Result<Vec<Pdu>, NoMemory>
    ensures { IfOk result (λ events. events.items ≡ map (λ stored. stored.event.event) auth.now) }
{
    let mut events = Vec::new(alloc);
    for stored in auth {
        events.push(stored.event.event().copy(alloc)?)?;
    }
    Ok(events)
}
