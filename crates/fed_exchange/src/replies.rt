// From replies to what is read of them.
ghost use Rattle.std.specs.Prelude.{IfOk};
ghost use Rattle.fed_exchange.specs.Messages.{IsStatusAt, IsStatusOf};

use crate::front::message_at_front;
use fed_http::{Message, Reader, Reply, write_reply};
use fed_json::NoMemory;
use std::alloc::Global;

/// The status that is read from the bytes of a reply, which is all that the sender of a transaction takes of it; `None` where its bytes
/// begin with no reply, as where it is an interim one or too large. The reply is written and read for that.
///
/// # Errors
///
/// `NoMemory` where memory runs out.
pub fn read_status(alloc: Global, reply: &Reply) -> Result<Option<u16>, NoMemory>
    ensures { IfOk result (λ found. IsStatusOf reply.now found) }
{
    let bytes = write_reply(alloc, reply)?;
    status_in(alloc, &bytes)
}

/// The status of the reply that bytes begin with; `None` where they begin with no reply, as where they are cut or it is an interim one or too
/// large. What stands behind it is not looked at.
///
/// # Errors
///
/// `NoMemory` where memory runs out.
pub fn status_in(alloc: Global, bytes: &[u8]) -> Result<Option<u16>, NoMemory>
    ensures { IfOk result (λ found. IsStatusAt bytes.now found) }
{
    match message_at_front(alloc, Reader::replies(alloc), bytes)? {
        Some(Message::Reply(reply)) => Ok(Some(reply.status())),
        Some(Message::Request(_)) => Ok(None),
        None => Ok(None),
    }
}
