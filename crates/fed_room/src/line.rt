// Events that stand in one line.
ghost use Rattle.std.specs.Prelude.{◌≡◌, ◌≢◌, true, Ok, Err, IfOk, IfErr, option_map};
ghost use Rattle.serde_json.specs.Find.{of_integer};
ghost use Rattle.fed_json.specs.Profile.{is_whole};
ghost use Rattle.fed_event.specs.declared.fault.PduFault.TheVariants.{Memory};
ghost use Rattle.fed_room_contract.specs.Prepared.{signer_of, is_own_user};
ghost use Rattle.fed_room.specs.Line.{empty_line, last_of, prev_events_after, depth_after_event, links_after, with_next, after_draft};
ghost use Rattle.fed_room.specs.LineParts.{line_seen};
ghost use Rattle.fed_room.specs.LinksParts.{links_seen};

use crate::decision::state_with;
use crate::drafting::{check_depth, sealed};
use crate::links::{Links, next_depth, selection};
use fed_event::{Checked, EventId, Keys, PduFault, Version};
use fed_json::NoMemory;
use fed_room_contract::{Draft, State, StateRef, Verdict};
use std::alloc::Global;

/// Events of a room of this version, each of which names the one before it, all of them accepted, and the state after the last.
#[derive(Drop)]
pub(crate) struct Line {
    pub(crate) version: Version,
    pub(crate) events: Vec<Checked>,
    pub(crate) state: State,
}

impl Line {
    /// No events, of a room of this version.
    pub(crate) fn empty(alloc: Global, version: Version) -> Line
        ensures { line_seen result ≡ empty_line version }
    {
        Line {
            version,
            events: Vec::new(alloc),
            state: State::new(alloc),
        }
    }

    /// The line with the event that the server of these keys makes of a draft.
    ///
    /// # Errors
    ///
    /// The fault of what is made, where it is no event. `Memory` where memory ran out, in place of a line or a fault.
    pub(crate) fn with_draft<K: Keys>(
        self,
        alloc: Global,
        draft: Draft,
        keys: &K,
    ) -> Result<Line, PduFault>
        requires { is_own_user (K.own_name keys.now) draft.sender ≡ true }
        ensures ok { let signer = signer_of (K.own_name keys.now) (K.own_key keys.now) (K.own_signature keys.now) (K.checks keys.now) in
            IfOk result (λ line. after_draft signer (line_seen self) draft ≡ Ok (line_seen line)) }
        ensures fails { let signer = signer_of (K.own_name keys.now) (K.own_key keys.now) (K.own_signature keys.now) (K.checks keys.now) in
            IfErr result (λ fault. fault ≢ Memory → after_draft signer (line_seen self) draft ≡ Err fault) }
    {
        check_depth(&draft)?;
        let links = self.links(alloc, &draft)?;
        let event = sealed(alloc, draft, links, keys)?;
        Ok(self.with(alloc, event)?)
    }

    // The line with one event more.
    fn with(self, alloc: Global, event: Checked) -> Result<Line, NoMemory>
        ensures { IfOk result (λ line. line_seen line ≡ with_next (line_seen self) event) }
    {
        let Line {
            version,
            mut events,
            state,
        } = self;
        let state = state_with(alloc, state, &event, Verdict::Accepted)?;
        events.push(event)?;
        Ok(Line {
            version,
            events,
            state,
        })
    }

    // What the event of a draft names where it comes next.
    fn links(&self, alloc: Global, draft: &Draft) -> Result<Links, NoMemory>
        ensures links { IfOk result (λ links. links_seen links ≡ links_after (line_seen self.now) draft.now) }
        ensures whole { IfOk result (λ links. is_whole (of_integer links.depth) ≡ true) }
    {
        let last = self.events.last();
        Ok(Links {
            version: self.version,
            auth_events: selection(alloc, draft, StateRef::Whole(&self.state))?,
            prev_events: prev_events_after(alloc, last)?,
            depth: depth_after_event(last),
        })
    }
}

// The prev events of an event behind this one, if there is one.
fn prev_events_after(alloc: Global, last: Option<&Checked>) -> Result<Vec<EventId>, NoMemory>
    ensures { IfOk result (λ ids. ids.items ≡ prev_events_after (option_map (λ event. event.now) last.entry)) }
{
    let mut ids = Vec::new(alloc);
    if let Some(last) = last {
        ids.push(last.event().id().copy(alloc)?)?;
    }
    Ok(ids)
}

// The depth of an event behind this one, if there is one.
fn depth_after_event(last: Option<&Checked>) -> i64
    ensures depth { result ≡ depth_after_event (option_map (λ event. event.now) last.entry) }
    ensures whole { is_whole (of_integer result) ≡ true }
{
    match last {
        Some(last) => next_depth(last.event().depth()),
        None => 1,
    }
}
