// What becomes of an event before there is a verdict on it.
use crate::receipt::Receipt;
use fed_event::Checked;

/// What becomes of an event that comes, as far as it takes no verdict.
#[derive(Drop)]
pub enum Arrival {
    /// All that it names is stored, and room is made for it: it can be stored with a verdict.
    Ready(Checked),
    /// It is known, waits, or was dropped.
    Told(Receipt),
}
