// Changes of a state.
ghost use Rattle.std.specs.Prelude.{◌≡◌, All, IfOk, OnOk, OnErr, find, option_map};
ghost use Rattle.fed_room_contract.specs.Entry.{seen};
ghost use Rattle.fed_room_contract.specs.State.{StateMap};
ghost use Rattle.fed_room_contract.specs.Steps.{IsAlikeBut};
ghost use Rattle.fed_room_contract.specs.ChangeParts.{AreKeysBeyond, IsChangeOf, IsHeldAt, IsTagged, bit_of, bits_with, held_by, is_change_at, tag_of, with_change, with_changes};

use crate::entry::Entry;
use crate::state::State;
use crate::tag::tag_of_text;
use fed_event::EventId;
use fed_json::NoMemory;
use std::alloc::Global;

/// What a state has at a type and state key in the place of what an earlier one has there: the event of this id, or none, where that does not
/// hold. Its tag is that of its type and state key.
#[derive(Drop)]
pub(crate) struct Change {
    pub(crate) tag: usize,
    pub(crate) kind: String,
    pub(crate) state_key: String,
    pub(crate) id: EventId,
    pub(crate) holds: bool,
}

impl Change {
    /// A change at a type and state key.
    ///
    /// # Errors
    ///
    /// `NoMemory`.
    pub(crate) fn new(
        alloc: Global,
        kind: &str,
        state_key: &str,
        id: EventId,
        holds: bool,
    ) -> Result<Change, NoMemory>
        ensures tag { IfOk result IsTagged }
        ensures parts { IfOk result (IsChangeOf kind.now state_key.now id holds) }
    {
        Ok(Change {
            tag: tag_of(kind, state_key),
            kind: String::from_str(alloc, kind)?,
            state_key: String::from_str(alloc, state_key)?,
            id,
            holds,
        })
    }

    /// The id that a state with this change has at its type and state key.
    pub(crate) fn id(&self) -> Option<&EventId>
        ensures { option_map (λ id. id.now) result ≡ held_by self.now }
    {
        if self.holds { Some(&self.id) } else { None }
    }

    /// Whether it is one at this type and state key, whose tag is given: nearly all others have another tag.
    fn is_at(&self, tag: usize, kind: &str, state_key: &str) -> bool
        requires own { IsTagged self.now }
        requires tag { tag ≡ tag_of kind.now state_key.now }
        ensures { result ≡ is_change_at kind.now state_key.now self.now }
    {
        self.tag == tag && self.state_key.as_str() == state_key && self.kind.as_str() == kind
    }

    // Makes the change. An error leaves the state as it was.
    fn make(&self, alloc: Global, state: &mut State) -> Result<(), NoMemory>
        ensures ok { OnOk result (state.new ≡ with_change state.old self.now) }
        ensures err { OnErr result (state.new ≡ state.old) }
    {
        let (kind, state_key) = (self.kind.as_str(), self.state_key.as_str());
        if !self.holds {
            state.remove(kind, state_key);
            return Ok(());
        }
        state.insert(alloc, kind, state_key, self.id.copy(alloc)?)
    }
}

/// What a state has at the types and state keys at which another one has entries, as changes.
///
/// # Errors
///
/// `NoMemory`.
pub(crate) fn changes_at(
    alloc: Global,
    state: &State,
    keys: &State,
) -> Result<Vec<Change>, NoMemory>
    ensures tags { IfOk result (λ changes. All IsTagged changes.items) }
    ensures made { (before : StateMap) → IsAlikeBut keys.now before state.now → IfOk result (λ changes. with_changes before changes.items ≡ state.now) }
{
    let mut changes = Vec::new(alloc);
    for entry in &keys.entries(alloc)? {
        changes.push(change_of(alloc, state, *entry)?)?;
    }
    Ok(changes)
}

// What a state has at the type and state key of an entry, as a change.
fn change_of(alloc: Global, state: &State, entry: Entry<'_>) -> Result<Change, NoMemory>
    ensures tag { IfOk result IsTagged }
    ensures held { IfOk result (IsHeldAt state.now (seen entry.entry).0) }
{
    let (kind, state_key) = (entry.kind, entry.state_key);
    match state.get(kind, state_key) {
        Some(id) => Change::new(alloc, kind, state_key, id.copy(alloc)?, true),
        None => Change::new(alloc, kind, state_key, entry.id.copy(alloc)?, false),
    }
}

/// Makes changes, of which the first at a type and state key counts.
///
/// # Errors
///
/// `NoMemory`; then some are made.
pub(crate) fn make_all(alloc: Global, changes: &[Change], state: &mut State) -> Result<(), NoMemory>
    ensures { OnOk result (state.new ≡ with_changes state.old changes.now) }
{
    for index in (0..changes.len()).rev() {
        changes[index].make(alloc, state)?;
    }
    Ok(())
}

/// The first of these changes at a type and state key, whose tag is given.
pub(crate) fn change_at<'a>(
    changes: &'a [Change],
    tag: usize,
    kind: &str,
    state_key: &str,
) -> Option<&'a Change>
    requires tags { All IsTagged changes.now }
    requires tag { tag ≡ tag_of kind.now state_key.now }
    ensures { option_map (λ c. c.now) result ≡ find (is_change_at kind.now state_key.now) changes.now }
{
    for change in changes {
        if change.is_at(tag, kind, state_key) {
            return Some(change);
        }
    }
    None
}

/// Adds the types and state keys of changes to those at which a state has entries.
///
/// # Errors
///
/// `NoMemory`.
pub(crate) fn add_keys(alloc: Global, changes: &[Change], keys: &mut State) -> Result<(), NoMemory>
    ensures { OnOk result (AreKeysBeyond keys.old changes.now keys.new) }
{
    for change in changes {
        let (kind, state_key) = (change.kind.as_str(), change.state_key.as_str());
        if keys.get(kind, state_key).is_none() {
            keys.insert(alloc, kind, state_key, change.id.copy(alloc)?)?;
        }
    }
    Ok(())
}

/// A word of bits, with those of the tags of changes.
pub(crate) fn bits_with(bits: u64, changes: &[Change]) -> u64
    ensures { result ≡ bits_with bits changes.now }
{
    let mut bits = bits;
    for change in changes {
        bits |= bit_of(change.tag);
    }
    bits
}

/// A number by which most types and state keys are told apart.
pub(crate) fn tag_of(kind: &str, state_key: &str) -> usize
    ensures { result ≡ tag_of kind.now state_key.now }
{
    tag_of_text(kind.len(), state_key)
}

/// The bit of a tag in a word.
pub(crate) fn bit_of(tag: usize) -> u64
    ensures { result ≡ bit_of tag }
{
    1 << (tag % 64)
}
