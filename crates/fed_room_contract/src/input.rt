// What a room is given.
use fed_event::Checked;

/// What a room is given, at one time.
#[derive(Drop)]
pub enum Input {
    /// An event comes: it is stored where it is ready, and else waits or is dropped, unless it is known.
    Receive(Checked),
    /// The waiting event that came first among those that are ready is stored; where none is ready, nothing changes.
    Advance,
    /// An event that the room has prepared is stored as accepted, unless its id is stored.
    Commit(Checked),
}
