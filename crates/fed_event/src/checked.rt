// Events that have passed the checks on receipt.
ghost use Rattle.std.specs.Prelude.{◌≡◌, true, false, Err, IfOk, OnOk, IsErrOf, string_bytes, option_map, if◌then◌else◌};
ghost use Rattle.std.specs.Arc.{arc_value};
ghost use Rattle.fed_json.specs.JsonRef.{seen};
ghost use Rattle.fed_event.specs.declared.checked.CheckFault.TheVariants.{Memory};
ghost use Rattle.fed_redaction.specs.Event.{Event};
ghost use Rattle.fed_redaction.specs.Redaction.{redacted};
ghost use Rattle.fed_redaction.specs.EventId.{signed_text_of, event_id_of};
ghost use Rattle.fed_redaction.specs.ContentHash.{hash_fits_of};
ghost use Rattle.fed_keys.specs.Keys.{Checks};
ghost use Rattle.fed_event.specs.Signatures.{is_signed as is_signed_by_sender};
ghost use Rattle.fed_event.specs.Fields.{room_id_of};
ghost use Rattle.fed_event.specs.Checked.{authorising_user_in, authorising_user_of, is_authorised as is_authorised_by, checked_of};
ghost use Rattle.fed_event.specs.CheckVerdict.{check_verdict_of};

use crate::ids::domain;
use crate::pdu::Pdu;
use crate::signature::is_signed_by;
use fed_json::{JsonRef, NoMemory};
use fed_keys::Keys;
use fed_redaction::signed_text;
use std::alloc::Global;
use std::marker::Model;
use std::sync::Arc;
use thiserror::Error;

/// An event that has passed the checks on receipt that need no room (Server-Server API, "Checks performed on receipt of a PDU",
/// checks 1 to 3): the event itself, or its redaction where the content hash does not fit, and whether the server of
/// `join_authorised_via_users_server` has signed it. However many hold it, the event is there once.
#[derive(Drop)]
pub struct Checked {
    event: Arc<Pdu>,
    authorised: bool,
}

impl Model for Checked {
    ghost use Rattle.std.specs.Arc.{arc_value};
    ghost use Rattle.fed_event.specs.Checked.{CheckedEvent, checked_code, IsChecked};

    ghost Value = { CheckedEvent };

    ghost coded = { checked_code };

    ghost view = { λ c. record { event = arc_value c.event; authorised = c.authorised } };

    ghost invariant = { λ c. IsChecked (record { event = arc_value c.event; authorised = c.authorised }) };
}

impl Checked {
    ghost use Rattle.fed_event.specs.Checked.{IsChecked};

    /// The event, perhaps redacted: under some keys, what the checks leave of an event that its sender's server has signed.
    pub fn event(&self) -> &Pdu
        ensures event { result.now ≡ self.now.event }
        ensures checked { IsChecked self.now }
    {
        &self.event
    }

    /// Whether the server of `join_authorised_via_users_server` has signed the event.
    pub fn is_authorised(&self) -> bool
        ensures { result ≡ self.now.authorised }
    {
        self.authorised
    }

    /// An equal value, which shares the event.
    ///
    /// # Errors
    ///
    /// Where the event is shared by as many as can be counted, which is told as want of memory.
    pub fn copy(&self, _alloc: Global) -> Result<Checked, NoMemory>
        ensures { IfOk result (λ c. c ≡ self.now) }
    {
        Ok(Checked {
            event: Arc::try_clone(&self.event)?,
            authorised: self.authorised,
        })
    }
}

/// Checked events are equal where the events are, and both or none are authorised. It takes no memory.
impl PartialEq for Checked {
    ghost use Rattle.std.specs.Prelude.{◌≡◌, ◌↔◌, IsTrue, bytes_eq};
    ghost use Rattle.std.specs.Cmp.{on_per, partial_equiv_from_equiv};
    ghost use Rattle.std.specs.Cmp.Lexicographic.{nat_list_eq_equiv};
    ghost use Rattle.fed_json.specs.Profile.{IsProfile};
    ghost use Rattle.fed_event.specs.Checked.{checked_text};

    ghost eq = { λ c d. bytes_eq (checked_text c) (checked_text d) };

    ghost laws = { on_per checked_text (partial_equiv_from_equiv nat_list_eq_equiv) };

    fn eq(&self, other: &Checked) -> bool
        ensures texts { result ≡ bytes_eq (checked_text self.now) (checked_text other.now) }
        ensures same { IsTrue result ↔ (self.now ≡ other.now) }
        ensures one { IsProfile self.now.event.value }
        ensures another { IsProfile other.now.event.value }
    {
        let is_same_event = *self.event == *other.event;
        is_same_event && self.authorised == other.authorised
    }
}

impl Eq for Checked {
    ghost use Rattle.std.specs.Cmp.{on_equiv};
    ghost use Rattle.std.specs.Cmp.Lexicographic.{nat_list_eq_equiv};
    ghost use Rattle.fed_event.specs.Checked.{checked_text};

    ghost laws = { on_equiv checked_text nat_list_eq_equiv };
}

/// Why an event is refused on receipt. Its text is the verdict that a transaction's reply gives.
#[derive(Clone, Copy, Debug, PartialEq, Eq, Error)]
pub enum CheckFault {
    /// Memory ran out.
    #[error("out of memory")]
    Memory,
    /// No key of the sender's server has signed the event.
    #[error("bad signature")]
    BadSignature,
}

impl CheckFault {
    /// The text that is displayed.
    pub fn verdict_text(self, alloc: Global) -> Result<String, NoMemory>
        ensures { IfOk result (λ text. string_bytes text ≡ check_verdict_of self) }
    {
        match self {
            CheckFault::Memory => String::from_str(alloc, "out of memory"),
            CheckFault::BadSignature => String::from_str(alloc, "bad signature"),
        }
    }
}

impl From<NoMemory> for CheckFault {
    ghost from_gives = { λ _ e. e ≡ Memory };

    fn from(_error: NoMemory) -> CheckFault {
        Self::Memory
    }
}

/// Checks an event on receipt (Server-Server API, "Checks performed on receipt of a PDU", checks 2 and 3): some key of the sender's
/// server has signed it, and what is kept is the event where its content hash fits, else its redaction. Whether the server of
/// `join_authorised_via_users_server` has signed is read from the event that came.
///
/// # Errors
///
/// `BadSignature` where no key of the sender's server has signed the event. `Memory` where memory ran out.
pub fn check_in<K: Keys>(alloc: Global, event: Pdu, keys: &K) -> Result<Checked, CheckFault>
    ensures ok { IfOk result (λ checked. checked ≡ checked_of (K.checks keys.now) event) }
    ensures signed { OnOk result (is_signed_by_sender (K.checks keys.now) event ≡ true) }
    ensures unsigned { IsErrOf result CheckFault.BadSignature → is_signed_by_sender (K.checks keys.now) event ≡ false }
{
    let signed = signed_text(alloc, event.version(), event.json())?;
    check_signed(alloc, event, &signed, keys)
}

/// `check_in`, for a caller that has the signed text of the event. That it is not signed is told without memory.
///
/// # Errors
///
/// Those of `check_in`.
pub fn check_signed<K: Keys>(
    alloc: Global,
    event: Pdu,
    signed: &[u8],
    keys: &K,
) -> Result<Checked, CheckFault>
    requires { signed.now ≡ signed_text_of event }
    ensures refuses { is_signed_by_sender (K.checks keys.now) event ≡ false → result ≡ Err CheckFault.BadSignature }
    ensures ok { IfOk result (λ checked. checked ≡ checked_of (K.checks keys.now) event) }
    ensures signed { OnOk result (is_signed_by_sender (K.checks keys.now) event ≡ true) }
    ensures unsigned { IsErrOf result CheckFault.BadSignature → is_signed_by_sender (K.checks keys.now) event ≡ false }
{
    if !is_signed(keys, &event, signed) {
        return Err(CheckFault::BadSignature);
    }
    let authorised = is_authorised(keys, &event, signed);
    let event = kept(alloc, event)?;
    Ok(Checked { event, authorised })
}

// The event where its content hash fits, else its redaction.
fn kept(alloc: Global, event: Pdu) -> Result<Arc<Pdu>, NoMemory>
    ensures { IfOk result (λ kept. arc_value kept ≡ (if hash_fits_of event.value then event else redacted event)) }
{
    let event = if event.hash_fits() {
        event
    } else {
        event.redacted(alloc)?
    };
    Ok(Arc::new(alloc, event)?)
}

// Whether the server of the sender has signed the event, whose signed text this is.
fn is_signed<K: Keys>(keys: &K, event: &Pdu, signed: &[u8]) -> bool
    requires { signed.now ≡ signed_text_of event.now }
    ensures { result ≡ is_signed_by_sender (K.checks keys.now) event.now }
{
    is_signed_by(keys, domain(event.sender()), event.json(), signed)
}

// Whether the server of the user that authorises a join has signed the event, whose signed text this is.
fn is_authorised<K: Keys>(keys: &K, event: &Pdu, signed: &[u8]) -> bool
    requires { signed.now ≡ signed_text_of event.now }
    ensures { result ≡ is_authorised_by (K.checks keys.now) event.now }
{
    match authorising_user(event) {
        Some(user) => is_signed_by(keys, domain(user), event.json(), signed),
        None => false,
    }
}

/// The user of `join_authorised_via_users_server`, who authorises a join to a restricted room (room version 8, "Authorization
/// rules"), where there is one that is a text.
pub fn authorising_user(event: &Pdu) -> Option<&str>
    ensures { option_map (λ s. s.now) result ≡ authorising_user_of event.now }
{
    authorising_user_in(event.content())
}

/// The same, by the content of the event.
pub fn authorising_user_in(content: JsonRef<'_>) -> Option<&str>
    ensures { option_map (λ s. s.now) result ≡ authorising_user_in (seen content.entry) }
{
    content.member("join_authorised_via_users_server")?.text()
}

/// An event that has passed the checks on receipt has the id and the room of the event that came, redacted or not.
pub fn ids_of_checked()
    ensures id { (checks : Checks) (event : Event) → event_id_of (checked_of checks event).event ≡ event_id_of event }
    ensures room { (checks : Checks) (event : Event) → room_id_of (checked_of checks event).event ≡ room_id_of event }
{}
