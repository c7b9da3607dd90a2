// Transactions on their way into an inbox.
ghost use Rattle.std.specs.Prelude.{◌≡◌, IfOk};
ghost use Rattle.fed_inbox.specs.Delivery.{first_reply, first_fresh};
ghost use Rattle.fed_inbox.specs.DeliveryParts.{delivered, judgement};

use crate::outcome::Outcome;
use crate::refusal::Refusal;
use fed_event::Checked;
use fed_http::Reply;
use fed_json::{Json, NoMemory};
use std::alloc::Global;

/// A transaction that a listed server delivers, read and known to be its own, but for what it brings, which is not looked at.
#[derive(Drop)]
pub struct Delivery {
    pub(crate) origin: String,
    pub(crate) txn: String,
    pub(crate) body: Json,
}

impl Delivery {
    /// The name of the server that sends it.
    pub fn origin(&self) -> &str
        ensures { result.now ≡ (delivered self.now).origin }
    {
        self.origin.as_str()
    }

    /// Its transaction id.
    pub fn txn(&self) -> &str
        ensures { result.now ≡ (delivered self.now).txn }
    {
        self.txn.as_str()
    }
}

/// A delivered transaction with what it comes to: what is taken and the reply, or why it is refused where no reply is kept for it.
#[derive(Drop)]
pub struct Judged {
    pub(crate) origin: String,
    pub(crate) txn: String,
    pub(crate) comes_to: Result<Outcome, Refusal>,
}

impl Judged {
    /// The reply that it gets where none is kept for it, as a copy.
    pub fn first_reply(&self, alloc: Global) -> Result<Reply, NoMemory>
        ensures { IfOk result (λ reply. reply ≡ first_reply (judgement self.now).comes_to) }
    {
        match &self.comes_to {
            Ok(outcome) => Ok(Reply::new(200, Vec::from_slice(alloc, &outcome.reply)?)),
            Err(refusal) => Ok(Reply::from(*refusal)),
        }
    }

    /// The events that it brings for the rooms where no reply is kept for it, in order.
    pub fn first_fresh(&self) -> &[Checked]
        ensures { result.now ≡ first_fresh (judgement self.now).comes_to }
    {
        match &self.comes_to {
            Ok(outcome) => &outcome.fresh,
            Err(_) => &[],
        }
    }
}
