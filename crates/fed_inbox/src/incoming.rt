// The beginning of a whole request.
ghost use Rattle.std.specs.Prelude.{◌≡◌, None, Err, IfOk, IfErr, Ok, option_map};
ghost use Rattle.fed_inbox.specs.SendPath.{path_of, segment_of};
ghost use Rattle.fed_inbox.specs.WholeRequest.{HasHeader, IsReadAs, is_for};
ghost use Rattle.fed_inbox.specs.IncomingParts.{IsReadFault, IsHeaderFault, HasNoHeader, heading_of};

use crate::refusal::Refusal;
use crate::send_path::txn_of;
use fed_http::{AuthFault, Request, XMatrix};
use std::alloc::Global;

/// What a request to this server says before its body is read.
#[derive(Drop)]
pub(crate) struct Incoming {
    /// The id of the transaction that it brings.
    pub(crate) txn: String,
    /// Who sends it, with the signature.
    pub(crate) header: XMatrix,
}

impl Incoming {
    /// What a request to the server `own` says. That its path is another one is told without memory.
    ///
    /// # Errors
    ///
    /// The first that applies:
    ///
    /// - `NoSuchPath` where the target is not the path of a transaction
    /// - `MethodNotAllowed` where the method is not PUT
    /// - `BadAuthorization` where it has not exactly one Authorization field, or that is none of the scheme X-Matrix
    /// - `WrongDestination` where that names a destination other than `own`
    ///
    /// `OutOfMemory` where memory ran out.
    pub(crate) fn of(alloc: Global, request: &Request, own: &str) -> Result<Incoming, Refusal>
        ensures ok { IfOk result (λ incoming. IsReadAs own.now request.now (Ok (heading_of incoming))) }
        ensures fault { IfErr result (λ refusal. IsReadFault own.now request.now refusal) }
        ensures no_path { segment_of (path_of request.now.target) ≡ None → result ≡ Err Refusal.NoSuchPath }
    {
        let Some(txn) = txn_of(alloc, request.target())? else {
            return Err(Refusal::NoSuchPath);
        };
        if request.method() != "PUT" {
            return Err(Refusal::MethodNotAllowed);
        }
        let header = header_of(alloc, request)?;
        if !is_for(own, &header) {
            return Err(Refusal::WrongDestination);
        }
        Ok(Incoming { txn, header })
    }
}

// What the one Authorization field of a request says. That it says nothing of the kind is told without memory.
fn header_of(alloc: Global, request: &Request) -> Result<XMatrix, Refusal>
    ensures ok { IfOk result (λ header. HasHeader request.now header) }
    ensures fault { IfErr result (λ refusal. IsHeaderFault request.now refusal) }
    ensures refuses { HasNoHeader request.now → result ≡ Err Refusal.BadAuthorization }
{
    let Some(text) = request.only_text("authorization") else {
        return Err(Refusal::BadAuthorization);
    };
    match XMatrix::read(alloc, text) {
        Ok(header) => Ok(header),
        Err(AuthFault::Memory) => Err(Refusal::OutOfMemory),
        Err(AuthFault::BadHeader) => Err(Refusal::BadAuthorization),
    }
}

// Whether a header names this server, or no destination.
fn is_for(own: &str, header: &XMatrix) -> bool
    ensures { result ≡ is_for own.now header.now.destination }
{
    match header.destination() {
        Some(destination) => destination == own,
        None => true,
    }
}
