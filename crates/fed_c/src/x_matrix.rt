//! What the Authorization field of a request says.
ghost use Rattle.std.specs.Prelude.{Ok};
ghost use Rattle.fed_c.specs.Output.{Output, Gives, IsRefused};
ghost use Rattle.fed_c.specs.XMatrix.{Answers, IsMade, IsWhy, whole, origin_of, destination_of, key_of, signature_of};

use crate::output::{Answer, give};
use crate::status::Status;
use crate::values::text;
use fed_http::{AuthFault, XMatrix};
use std::alloc::Global;

// What the text of an Authorization field says.
fn reading(alloc: Global, header: &[u8]) -> Result<XMatrix, Status>
    ensures { Answers whole header.now (IsMade result (λ said. said)) (IsWhy result) }
{
    match XMatrix::read(alloc, text(header)?) {
        Ok(said) => Ok(said),
        Err(AuthFault::Memory) => Err(Status::Memory),
        Err(AuthFault::BadHeader) => Err(Status::BadHeader),
    }
}

/// The name of the server that sends a request, as its Authorization field says it (Server-Server API, "Request Authentication").
///
/// Returns `NotUtf8` where the text of the field is not UTF-8, and `BadHeader` where it is none of the scheme `X-Matrix`. Neither
/// needs memory.
#[unsafe(no_mangle)]
pub extern "C" fn wikzord_x_matrix_origin(
    alloc: Global,
    header: &[u8],
    out: &mut [u8],
    needed: &mut usize,
) -> u32
    ensures { let o : Output = record { before = out.old; after = out.new; told_before = needed.old; told = needed.new } in
        Answers origin_of header.now (λ bytes. Gives (Ok bytes) result o) (λ why. IsRefused why result o) }
{
    give(origin(alloc, header), out, needed)
}

fn origin(alloc: Global, header: &[u8]) -> Answer
    ensures { Answers origin_of header.now (IsMade result (λ bytes. bytes.items)) (IsWhy result) }
{
    let said = reading(alloc, header)?;
    Ok(Vec::from_slice(alloc, said.origin().as_bytes())?)
}

/// The name of the server that a request is sent to, as its Authorization field says it (Server-Server API, "Request Authentication"); no
/// bytes where the field names none.
///
/// Returns `NotUtf8` where the text of the field is not UTF-8, and `BadHeader` where it is none of the scheme `X-Matrix`. Neither
/// needs memory.
#[unsafe(no_mangle)]
pub extern "C" fn wikzord_x_matrix_destination(
    alloc: Global,
    header: &[u8],
    out: &mut [u8],
    needed: &mut usize,
) -> u32
    ensures { let o : Output = record { before = out.old; after = out.new; told_before = needed.old; told = needed.new } in
        Answers destination_of header.now (λ bytes. Gives (Ok bytes) result o) (λ why. IsRefused why result o) }
{
    give(destination(alloc, header), out, needed)
}

fn destination(alloc: Global, header: &[u8]) -> Answer
    ensures { Answers destination_of header.now (IsMade result (λ bytes. bytes.items)) (IsWhy result) }
{
    let said = reading(alloc, header)?;
    match said.destination() {
        Some(name) => Ok(Vec::from_slice(alloc, name.as_bytes())?),
        None => Ok(Vec::new(alloc)),
    }
}

/// The name of the key that signed a request, as its Authorization field says it (Server-Server API, "Request Authentication").
///
/// Returns `NotUtf8` where the text of the field is not UTF-8, and `BadHeader` where it is none of the scheme `X-Matrix`. Neither
/// needs memory.
#[unsafe(no_mangle)]
pub extern "C" fn wikzord_x_matrix_key(
    alloc: Global,
    header: &[u8],
    out: &mut [u8],
    needed: &mut usize,
) -> u32
    ensures { let o : Output = record { before = out.old; after = out.new; told_before = needed.old; told = needed.new } in
        Answers key_of header.now (λ bytes. Gives (Ok bytes) result o) (λ why. IsRefused why result o) }
{
    give(key(alloc, header), out, needed)
}

fn key(alloc: Global, header: &[u8]) -> Answer
    ensures { Answers key_of header.now (IsMade result (λ bytes. bytes.items)) (IsWhy result) }
{
    let said = reading(alloc, header)?;
    Ok(Vec::from_slice(alloc, said.key().as_bytes())?)
}

/// The signature of a request: 64 bytes, as its Authorization field says it (Server-Server API, "Request Authentication").
///
/// Returns `NotUtf8` where the text of the field is not UTF-8, and `BadHeader` where it is none of the scheme `X-Matrix`. Neither
/// needs memory.
#[unsafe(no_mangle)]
pub extern "C" fn wikzord_x_matrix_signature(
    alloc: Global,
    header: &[u8],
    out: &mut [u8],
    needed: &mut usize,
) -> u32
    ensures { let o : Output = record { before = out.old; after = out.new; told_before = needed.old; told = needed.new } in
        Answers signature_of header.now (λ bytes. Gives (Ok bytes) result o) (λ why. IsRefused why result o) }
{
    give(signature(alloc, header), out, needed)
}

fn signature(alloc: Global, header: &[u8]) -> Answer
    ensures { Answers signature_of header.now (IsMade result (λ bytes. bytes.items)) (IsWhy result) }
{
    let said = reading(alloc, header)?;
    Ok(Vec::from_slice(alloc, said.signature())?)
}
