// What is sent to a destination at once.
use fed_event::Checked;
use fed_json::Json;

/// The most events of one transaction.
pub const MAX_PDUS: usize = 50;

/// The most ephemeral data units of one transaction.
pub const MAX_EDUS: usize = 100;

/// A transaction (Server-Server API, "Transactions"): events and ephemeral data units that an outbox lends.
#[derive(Clone, Copy)]
pub struct Transaction<'a> {
    /// Its number, counted from 1 for each destination.
    pub number: u64,
    /// When it was made, in milliseconds since the Unix epoch.
    pub at_ms: u64,
    /// The events, at most `MAX_PDUS`, in order.
    pub pdus: &'a [Checked],
    /// The ephemeral data units, at most `MAX_EDUS`, in order.
    pub edus: &'a [Json],
}
