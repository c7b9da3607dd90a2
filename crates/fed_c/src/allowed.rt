//! Whether a room allows an event.
ghost use Rattle.std.specs.Prelude.{◌≡◌, ◌≢◌, Ok, Err, IfOk, IfErr};
ghost use Rattle.fed_event.specs.Reading.{read_of};
ghost use Rattle.fed_c.specs.Allowed.{allowed_answer, rule_numbers};
ghost use Rattle.fed_c.specs.Events.{read_or_status};
ghost use Rattle.fed_c.specs.Output.{Gives, IsRefused};
ghost use Rattle.fed_c.specs.RoomVersion.{by_version, version_in};
ghost use Rattle.fed_c.specs.Status.{number_of};
ghost use Rattle.fed_c.specs.Values.{value_of};
ghost use Rattle.fed_c.specs.declared.status.Status.TheVariants.{Memory, BadVersion};

use crate::output::{Answer, give};
use crate::room_version::room_version;
use crate::signers::checked;
use crate::state_events::{made_of, state_events};
use fed_json::NoMemory;
use fed_room_contract::Rule;
use std::alloc::Global;

/// Whether a room of this version allows an event (room versions 10 and 11, "Authorization rules", but rule 2): no bytes where it does, else
/// three, the numbers of the rule that rejects it, of the condition and of its branch, 0 where there is none.
///
/// `state` is an array of the events that hold before the event, of which those at the keys of its selection are enough. That the servers of
/// the senders have signed them is the caller's to see, and `authorised` tells whether the signature of the server of
/// `join_authorised_via_users_server` has checked too.
///
/// Returns `BadVersion` where `version` is neither 10 nor 11, for which it needs no memory; then `NotJson` and `NotCanonical` where the array
/// has no value, `BadEvents` where it is none of events, and `BadState` where one is no state event or two stand at one type and state key; then
/// the fault of the first test that the event fails, as `wikzord_event_test` does; then `NotSigned` where its sender's server has no signature
/// there.
#[unsafe(no_mangle)]
pub extern "C" fn wikzord_allowed(
    alloc: Global,
    version: u32,
    text: &[u8],
    state: &[u8],
    authorised: bool,
    out: &mut [u8],
    needed: &mut usize,
) -> u32
    ensures gives { Gives (by_version version (λ v. allowed_answer v (value_of state.now) (read_or_status (read_of text.now)) authorised)) result
        (record { before = out.old; after = out.new; told_before = needed.old; told = needed.new }) }
    ensures refuses { version_in version ≡ Err BadVersion
        → IsRefused BadVersion result (record { before = out.old; after = out.new; told_before = needed.old; told = needed.new }) }
    ensures only { result ≡ number_of BadVersion → version_in version ≡ Err BadVersion }
{
    give(
        allowed(alloc, version, text, state, authorised),
        out,
        needed,
    )
}

fn allowed(alloc: Global, version: u32, text: &[u8], state: &[u8], authorised: bool) -> Answer
    ensures ok { IfOk result (λ bytes. by_version version (λ v. allowed_answer v (value_of state.now) (read_or_status (read_of text.now)) authorised) ≡ Ok bytes.items) }
    ensures fault { IfErr result (λ status. status ≢ Memory → by_version version (λ v. allowed_answer v (value_of state.now) (read_or_status (read_of text.now)) authorised) ≡ Err status) }
    ensures refuses { version_in version ≡ Err BadVersion → result ≡ Err BadVersion }
{
    let version = room_version(version)?;
    let held = state_events(alloc, version, state)?;
    let _state = made_of(alloc, &held)?;
    let event = checked(alloc, version, text, authorised)?;
    Ok(rule_numbers(alloc, fed_auth::allowed_by(&held, &event))?)
}

/// The three numbers of the rule that rejects an event; nothing where it is allowed.
pub(crate) fn rule_numbers(alloc: Global, verdict: Result<(), Rule>) -> Result<Vec<u8>, NoMemory>
    ensures { IfOk result (λ bytes. bytes.items ≡ rule_numbers verdict) }
{
    match verdict {
        Ok(()) => Ok(Vec::new(alloc)),
        Err(rule) => Vec::from_slice(alloc, &[rule.section, rule.condition, rule.branch]),
    }
}
