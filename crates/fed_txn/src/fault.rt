// Why a body is no transaction.
ghost use Rattle.std.specs.Prelude.{◌≡◌, Some};
ghost use Rattle.fed_txn.specs.Fault.{field_name, fault_text};
ghost use Rattle.fed_txn.specs.declared.fault.TxnFault.TheVariants.{Memory, BadJson};

use fed_json::NoMemory;
use std::fmt;
use thiserror::Error;

/// A part of a body that has to be of one kind (Server-Server API, "Transactions").
#[derive(Clone, Copy, Debug, PartialEq, Eq)]
pub enum BodyField {
    /// The body itself: an object.
    Body,
    /// The name of the sending server: a text.
    Origin,
    /// When the sender made the transaction: a whole number of milliseconds.
    OriginServerTs,
    /// The events: an array.
    Pdus,
    /// The ephemeral data units, where there are any: an array.
    Edus,
}

impl BodyField {
    /// The name of the part in error texts: `body`, or the name of the member.
    pub fn name(self) -> &'static str
        ensures { result.now ≡ field_name self }
    {
        match self {
            BodyField::Body => "body",
            BodyField::Origin => "origin",
            BodyField::OriginServerTs => "origin_server_ts",
            BodyField::Pdus => "pdus",
            BodyField::Edus => "edus",
        }
    }

    // The error text of a body in which this part is missing or of another kind.
    fn fault_text(self) -> &'static str
        ensures { result.now ≡ fault_text (BadJson self) }
    {
        match self {
            BodyField::Body => "bad field: body",
            BodyField::Origin => "bad field: origin",
            BodyField::OriginServerTs => "bad field: origin_server_ts",
            BodyField::Pdus => "bad field: pdus",
            BodyField::Edus => "bad field: edus",
        }
    }
}

impl fmt::Display for BodyField {
    ghost output = { λ field. Some (field_name field) };

    fn fmt<W: fmt::Write>(&self, f: &mut fmt::Formatter<W>) -> fmt::Result {
        f.write_str(self.name())
    }
}

/// Why a body is no transaction. Of several faults the first in the order `TooLarge`, `NotJson`, `NotCanonical`, `BadJson` by
/// the order of `BodyField`, `TooManyPdus`, `TooManyEdus` is given.
#[derive(Clone, Copy, Debug, PartialEq, Eq, Error)]
#[error("{}", self.text())]
pub enum TxnFault {
    /// Memory ran out.
    Memory,
    /// The body is not UTF-8, or no JSON text, or nests deeper than 127 levels.
    NotJson,
    /// A number is not a whole one from -(2^53)+1 to 2^53-1, or is not written as one.
    NotCanonical,
    /// A part is missing or of another kind.
    BadJson(BodyField),
    /// There are more than `MAX_PDUS` events.
    TooManyPdus,
    /// There are more than `MAX_EDUS` ephemeral data units.
    TooManyEdus,
    /// The body has more than `MAX_BODY` bytes.
    TooLarge,
}

impl TxnFault {
    /// The text of the `error` member of a reply that tells of this fault.
    pub fn text(self) -> &'static str
        ensures { result.now ≡ fault_text self }
    {
        match self {
            TxnFault::Memory => "out of memory",
            TxnFault::NotJson => "not json",
            TxnFault::NotCanonical => "not canonical",
            TxnFault::BadJson(field) => field.fault_text(),
            TxnFault::TooManyPdus => "too many pdus",
            TxnFault::TooManyEdus => "too many edus",
            TxnFault::TooLarge => "body too large",
        }
    }
}

impl From<NoMemory> for TxnFault {
    ghost from_gives = { λ _ fault. fault ≡ Memory };

    fn from(_error: NoMemory) -> TxnFault {
        Self::Memory
    }
}
