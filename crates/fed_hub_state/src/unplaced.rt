// Loads on their way to the journal.
use fed_dest::ServerIndex;
use fed_journal::Load;

/// What is offered, for one destination, before its place is known.
#[derive(Drop)]
pub struct Unplaced {
    pub dest: ServerIndex,
    pub load: Load,
}
