// The message that bytes begin with.
ghost use Rattle.std.specs.Prelude.{◌≡◌, ◌≢◌, [], None, IfOk, IfSome, IfNone};
ghost use Rattle.fed_http.specs.Reader.{StandsFor};
ghost use Rattle.fed_http.specs.Text.{HasNoText};
ghost use Rattle.fed_http.specs.declared.fault.HttpFault.TheVariants.{Memory};
ghost use Rattle.fed_http.specs.Text.{BeginsWith};

use fed_http::{HttpFault, Message, Reader};
use fed_json::NoMemory;
use std::alloc::Global;

/// The message that a reader finds at the front of bytes.
pub(crate) fn message_at_front(
    alloc: Global,
    mut reader: Reader,
    bytes: &[u8],
) -> Result<Option<Message>, NoMemory>
    requires { StandsFor reader [] }
    ensures found { IfOk result (λ found. IfSome found (λ m. BeginsWith reader.kind bytes.now m)) }
    ensures none { IfOk result (λ found. IfNone found (HasNoText reader.kind bytes.now)) }
{
    match reader.feed(alloc, bytes) {
        Ok((message, _)) => Ok(message),
        Err(fault) => no_message(fault),
    }
}

// What bytes in which a reader finds a fault come to.
fn no_message(fault: HttpFault) -> Result<Option<Message>, NoMemory>
    ensures told { IfOk result (λ found. found ≡ None) }
    ensures others { IfOk result (λ _. fault ≢ Memory) }
{
    match fault {
        HttpFault::Memory => Err(NoMemory),
        HttpFault::BadHead
        | HttpFault::TooLarge
        | HttpFault::BadLength
        | HttpFault::BadChunk
        | HttpFault::HasFailed => Ok(None),
    }
}
