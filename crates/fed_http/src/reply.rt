// A reply.
ghost use Rattle.std.specs.Prelude.{◌≡◌, IfOk};
ghost use Rattle.fed_http.specs.Message.{Answer};

use fed_json::NoMemory;
use std::alloc::Global;
use std::marker::Model;

/// A reply (RFC 9112, section 4): a status and a body.
#[derive(Debug, Drop)]
pub struct Reply {
    status: u16,
    content: Content,
}

/// The bytes of a body, or a text that the program has.
#[derive(Debug, Drop)]
enum Content {
    Bytes(Vec<u8>),
    Fixed(&'static str),
}

impl Model for Reply {
    ghost use Rattle.fed_http.specs.Message.{Answer, answer_code};
    ghost use Rattle.fed_http.specs.ReplyParts.{body_of};

    ghost Value = { Answer };

    ghost coded = { answer_code };

    ghost view = { λ r. record { status = r.status; body = body_of r.content } };
}

impl Reply {
    /// The reply of this status and these bytes. It takes no memory.
    pub fn new(status: u16, body: Vec<u8>) -> Reply
        ensures { result ≡ record { status = status; body = body.items } }
    {
        Reply {
            status,
            content: Content::Bytes(body),
        }
    }

    /// The reply of this status and this text. It takes no memory, so that want of it can be told.
    pub fn fixed(status: u16, body: &'static str) -> Reply
        ensures { result ≡ record { status = status; body = body.now } }
    {
        Reply {
            status,
            content: Content::Fixed(body),
        }
    }

    /// The status.
    pub fn status(&self) -> u16
        ensures { result ≡ self.now.status }
    {
        self.status
    }

    /// The body.
    pub fn body(&self) -> &[u8]
        ensures { result.now ≡ self.now.body }
    {
        match &self.content {
            Content::Bytes(body) => body.as_slice(),
            Content::Fixed(body) => body.as_bytes(),
        }
    }

    /// An equal reply. The text of a reply that `fixed` made is not copied, so that this takes no memory.
    pub fn copy(&self, alloc: Global) -> Result<Reply, NoMemory>
        ensures { IfOk result (λ copy. copy ≡ self.now) }
    {
        let content = self.content.copy(alloc)?;
        Ok(Reply {
            status: self.status,
            content,
        })
    }
}

impl Content {
    ghost use Rattle.std.specs.Prelude.{◌≡◌, IfOk, IsOk};
    ghost use Rattle.fed_http.specs.ReplyParts.{IsFixed, body_of};

    // Content of the same bytes.
    fn copy(&self, alloc: Global) -> Result<Content, NoMemory>
        ensures same { IfOk result (λ copy. body_of copy ≡ body_of self.now) }
        ensures fixed { IsFixed self.now → IsOk result }
    {
        match self {
            Content::Bytes(body) => Ok(Content::Bytes(Vec::from_slice(alloc, body)?)),
            Content::Fixed(body) => Ok(Content::Fixed(body)),
        }
    }
}
