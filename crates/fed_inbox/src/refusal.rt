// The error replies.
ghost use Rattle.std.specs.Prelude.{◌≡◌};
ghost use Rattle.fed_inbox.specs.Refusal.{error_reply, error_body};

use fed_http::Reply;
use fed_json::NoMemory;
use fed_txn::{BodyField, TxnFault};

/// Why a request is refused (Server-Server API, "Standard error response").
#[derive(Clone, Copy, Debug, PartialEq, Eq)]
pub enum Refusal {
    /// The target is not the path of a transaction.
    NoSuchPath,
    /// The method is not PUT.
    MethodNotAllowed,
    /// The request has no Authorization field of the scheme X-Matrix, or more than one field.
    BadAuthorization,
    /// The request is for another server.
    WrongDestination,
    /// The origin is not another listed server.
    ServerNotListed,
    /// The body has more than 16,777,216 bytes.
    BodyTooLarge,
    /// The body is no JSON text.
    NotJson,
    /// The body has no canonical text.
    NotCanonical,
    /// The signature of the request does not check.
    BadSignature,
    /// The body names another origin than the request.
    OriginDiffers,
    /// A field of the body is missing or of another kind.
    BadField(BodyField),
    /// The body has more than 50 PDUs.
    TooManyPdus,
    /// The body has more than 100 EDUs.
    TooManyEdus,
    /// Memory ran out.
    OutOfMemory,
}

impl Refusal {
    ghost use Rattle.std.specs.Prelude.{◌≡◌};
    ghost use Rattle.fed_inbox.specs.Refusal.{error_reply, error_body};

    /// The HTTP status.
    pub fn status(self) -> u16
        ensures { result ≡ (error_reply self).status }
    {
        match self {
            Refusal::NoSuchPath => 404,
            Refusal::MethodNotAllowed => 405,
            Refusal::BadAuthorization => 401,
            Refusal::WrongDestination => 401,
            Refusal::ServerNotListed => 403,
            Refusal::BodyTooLarge => 413,
            Refusal::BadSignature => 401,
            Refusal::OriginDiffers => 401,
            Refusal::OutOfMemory => 500,
            Refusal::NotJson => 400,
            Refusal::NotCanonical => 400,
            Refusal::BadField(_) => 400,
            Refusal::TooManyPdus => 400,
            Refusal::TooManyEdus => 400,
        }
    }

    /// The body of the reply, canonical JSON.
    pub fn body(self) -> &'static str
        ensures { result.now ≡ error_body (error_reply self) }
    {
        match self {
            Refusal::NoSuchPath => "{\"errcode\":\"M_UNRECOGNIZED\",\"error\":\"no such path\"}",
            Refusal::MethodNotAllowed => {
                "{\"errcode\":\"M_UNRECOGNIZED\",\"error\":\"method not allowed\"}"
            }
            Refusal::BadAuthorization => {
                "{\"errcode\":\"M_UNAUTHORIZED\",\"error\":\"bad authorization\"}"
            }
            Refusal::WrongDestination => {
                "{\"errcode\":\"M_UNAUTHORIZED\",\"error\":\"wrong destination\"}"
            }
            Refusal::ServerNotListed => {
                "{\"errcode\":\"M_FORBIDDEN\",\"error\":\"server not listed\"}"
            }
            Refusal::BodyTooLarge => "{\"errcode\":\"M_TOO_LARGE\",\"error\":\"body too large\"}",
            Refusal::NotJson => "{\"errcode\":\"M_NOT_JSON\",\"error\":\"not json\"}",
            Refusal::NotCanonical => "{\"errcode\":\"M_BAD_JSON\",\"error\":\"not canonical\"}",
            Refusal::BadSignature => {
                "{\"errcode\":\"M_UNAUTHORIZED\",\"error\":\"bad signature\"}"
            }
            Refusal::OriginDiffers => {
                "{\"errcode\":\"M_UNAUTHORIZED\",\"error\":\"origin differs\"}"
            }
            Refusal::BadField(field) => bad_field(field),
            Refusal::TooManyPdus => "{\"errcode\":\"M_BAD_JSON\",\"error\":\"too many pdus\"}",
            Refusal::TooManyEdus => "{\"errcode\":\"M_BAD_JSON\",\"error\":\"too many edus\"}",
            Refusal::OutOfMemory => "{\"errcode\":\"M_UNKNOWN\",\"error\":\"out of memory\"}",
        }
    }
}

fn bad_field(field: BodyField) -> &'static str
    ensures { result.now ≡ error_body (error_reply (Refusal.BadField field)) }
{
    match field {
        BodyField::Body => "{\"errcode\":\"M_BAD_JSON\",\"error\":\"bad field: body\"}",
        BodyField::Origin => "{\"errcode\":\"M_BAD_JSON\",\"error\":\"bad field: origin\"}",
        BodyField::OriginServerTs => {
            "{\"errcode\":\"M_BAD_JSON\",\"error\":\"bad field: origin_server_ts\"}"
        }
        BodyField::Pdus => "{\"errcode\":\"M_BAD_JSON\",\"error\":\"bad field: pdus\"}",
        BodyField::Edus => "{\"errcode\":\"M_BAD_JSON\",\"error\":\"bad field: edus\"}",
    }
}

impl From<NoMemory> for Refusal {
    ghost use Rattle.fed_inbox.specs.declared.refusal.Refusal.TheVariants.{OutOfMemory};
    ghost use Rattle.std.specs.Prelude.{◌≡◌};

    ghost from_gives = { λ _ r. r ≡ OutOfMemory };

    fn from(_error: NoMemory) -> Refusal {
        Refusal::OutOfMemory
    }
}

impl From<TxnFault> for Refusal {
    ghost use Rattle.fed_inbox.specs.Refusal.{refusal_of};
    ghost use Rattle.std.specs.Prelude.{◌≡◌};

    ghost from_gives = { λ f r. r ≡ refusal_of f };

    fn from(fault: TxnFault) -> Refusal {
        match fault {
            TxnFault::Memory => Refusal::OutOfMemory,
            TxnFault::NotJson => Refusal::NotJson,
            TxnFault::NotCanonical => Refusal::NotCanonical,
            TxnFault::BadJson(field) => Refusal::BadField(field),
            TxnFault::TooManyPdus => Refusal::TooManyPdus,
            TxnFault::TooManyEdus => Refusal::TooManyEdus,
            TxnFault::TooLarge => Refusal::BodyTooLarge,
        }
    }
}

impl From<Refusal> for Reply {
    ghost use Rattle.fed_inbox.specs.Reply.{refused};
    ghost use Rattle.std.specs.Prelude.{◌≡◌};

    ghost from_gives = { λ refusal reply. reply ≡ refused refusal };

    /// The error reply. It is made without memory.
    fn from(refusal: Refusal) -> Reply {
        Reply::fixed(refusal.status(), refusal.body())
    }
}
