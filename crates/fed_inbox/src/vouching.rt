// Who vouches for the sender of a body.
ghost use Rattle.std.specs.Prelude.{◌≡◌, IfOk, true, Ok};

use fed_event::Keys;
use fed_http::{Request, XMatrix, is_signed};
use fed_json::{Json, NoMemory, canonical};
use std::alloc::Global;

/// What tells, once the body of a request is read, whether its origin has signed it.
pub(crate) trait Vouch {
    ghost use Rattle.std.specs.Prelude.{Bool};
    ghost use Rattle.serde_json.specs.Data.{Data};

    // whether the origin has signed a request whose body is of this value
    ghost vouches: { Self → Data → Bool };

    fn vouch(&self, alloc: Global, body: &Json) -> Result<bool, NoMemory>
        ensures { IfOk result (λ vouched. vouched ≡ vouches self.now body.now) };
}

/// The origin is known by other means.
pub(crate) struct Known;

impl Vouch for Known {
    ghost vouches = { λ _ _. true };

    fn vouch(&self, _alloc: Global, _body: &Json) -> Result<bool, NoMemory>
        ensures { result ≡ Ok true }
    {
        Ok(true)
    }
}

/// The signature in the header of a request to the server `own` (Server-Server API, "Request Authentication").
#[derive(Drop)]
pub(crate) struct Signed<'a, K: Keys> {
    pub(crate) request: &'a Request,
    pub(crate) header: &'a XMatrix,
    pub(crate) own: &'a str,
    pub(crate) keys: &'a K,
}

impl<'a, K: Keys> Vouch for Signed<'a, K> {
    ghost use Rattle.fed_inbox.specs.WholeRequest.{is_signed_by};

    ghost vouches = { λ s. is_signed_by (K.checks s.keys.now) s.own.now s.request.now s.header.now };

    fn vouch(&self, alloc: Global, body: &Json) -> Result<bool, NoMemory> {
        let content = canonical(alloc, body)?;
        is_signed(
            alloc,
            self.header,
            self.request.method(),
            self.request.target(),
            self.own,
            &content,
            self.keys,
        )
    }
}
