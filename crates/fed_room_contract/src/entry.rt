// Entries of a state.
use fed_event::EventId;

/// An entry of a state: the type, the state key, and the id of the event that holds there.
#[derive(Clone, Copy, Debug)]
pub struct Entry<'a> {
    pub kind: &'a str,
    pub state_key: &'a str,
    pub id: &'a EventId,
}
