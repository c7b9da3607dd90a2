//! The Authorization field of a request, written.
ghost use Rattle.std.specs.Prelude.{◌≡◌, ◌≢◌, Ok, Err, IfOk, IfErr, option_map, string_bytes};
ghost use Rattle.fed_c.specs.Output.{Gives, IsRefused};
ghost use Rattle.fed_c.specs.Values.{unless_empty};
ghost use Rattle.fed_c.specs.XMatrixText.{header_answer, said_of, signature_in};
ghost use Rattle.fed_c.specs.declared.status.Status.{Status};
ghost use Rattle.fed_c.specs.declared.status.Status.TheVariants.{Memory};

use crate::output::{Answer, give};
use crate::status::Status;
use crate::values::text;
use fed_http::XMatrix;
use fed_json::NoMemory;
use std::alloc::Global;

/// The text of the Authorization field of a request (Server-Server API, "Request Authentication") by the names of the server that sends, of
/// the one that receives and of the sender's key, and by the signature; without a destination it names none. It is read as these again.
///
/// Returns `NotUtf8` where a name is not UTF-8, else `BadSignature` where the signature has not 64 bytes; neither needs memory.
#[unsafe(no_mangle)]
pub extern "C" fn wikzord_x_matrix_header(
    alloc: Global,
    origin: &[u8],
    destination: &[u8],
    key: &[u8],
    signature: &[u8],
    out: &mut [u8],
    needed: &mut usize,
) -> u32
    ensures gives { Gives (header_answer (said_of (record { origin = origin.now; destination = destination.now; key = key.now; signature = signature.now }))) result
        (record { before = out.old; after = out.new; told_before = needed.old; told = needed.new }) }
    ensures refuses { (why : Status) → said_of (record { origin = origin.now; destination = destination.now; key = key.now; signature = signature.now }) ≡ Err why
        → IsRefused why result (record { before = out.old; after = out.new; told_before = needed.old; told = needed.new }) }
{
    let written = header(alloc, origin, destination, key, signature);
    give(written, out, needed)
}

fn header(alloc: Global, origin: &[u8], destination: &[u8], key: &[u8], signature: &[u8]) -> Answer
    ensures ok { IfOk result (λ bytes. header_answer (said_of (record { origin = origin.now; destination = destination.now; key = key.now; signature = signature.now })) ≡ Ok bytes.items) }
    ensures fault { IfErr result (λ status. status ≢ Memory
        → header_answer (said_of (record { origin = origin.now; destination = destination.now; key = key.now; signature = signature.now })) ≡ Err status) }
    ensures refuses { (why : Status) → said_of (record { origin = origin.now; destination = destination.now; key = key.now; signature = signature.now }) ≡ Err why
        → result ≡ Err why }
{
    let said = said(alloc, origin, destination, key, signature)?;
    Ok(said.write(alloc)?)
}

// What the field is to say.
fn said(
    alloc: Global,
    origin: &[u8],
    destination: &[u8],
    key: &[u8],
    signature: &[u8],
) -> Result<XMatrix, Status>
    ensures ok { IfOk result (λ said. said_of (record { origin = origin.now; destination = destination.now; key = key.now; signature = signature.now }) ≡ Ok said) }
    ensures fault { IfErr result (λ status. status ≢ Memory → said_of (record { origin = origin.now; destination = destination.now; key = key.now; signature = signature.now }) ≡ Err status) }
    ensures refuses { (why : Status) → said_of (record { origin = origin.now; destination = destination.now; key = key.now; signature = signature.now }) ≡ Err why → result ≡ Err why }
{
    let origin = text(origin)?;
    let destination = text(destination)?;
    let key = text(key)?;
    let signature = signature_in(signature)?;
    let origin = String::from_str(alloc, origin)?;
    let destination = unless_empty(alloc, destination)?;
    let key = String::from_str(alloc, key)?;
    Ok(XMatrix::new(origin, destination, key, signature))
}

// The signature that bytes are.
fn signature_in(bytes: &[u8]) -> Result<[u8; 64], Status>
    ensures ok { IfOk result (λ signature. signature_in bytes.now ≡ Ok signature) }
    ensures fault { IfErr result (λ status. signature_in bytes.now ≡ Err status) }
{
    let mut signature = [0; 64];
    if bytes.len() != signature.len() {
        return Err(Status::BadSignature);
    }
    signature.copy_from_slice(bytes);
    Ok(signature)
}

// The text, or nothing where it is empty.
fn unless_empty(alloc: Global, text: &str) -> Result<Option<String>, NoMemory>
    ensures { IfOk result (λ given. option_map string_bytes given ≡ unless_empty text.now) }
{
    if text.is_empty() {
        Ok(None)
    } else {
        Ok(Some(String::from_str(alloc, text)?))
    }
}
