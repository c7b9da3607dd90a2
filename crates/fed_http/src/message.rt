// What is sent over a connection.
use crate::reply::Reply;
use crate::request::Request;

/// Which messages a connection carries in one direction.
#[derive(Clone, Copy, Debug, PartialEq, Eq)]
pub enum Kind {
    /// Those of a client.
    Requests,
    /// Those of a server.
    Replies,
}

/// A message (RFC 9112, section 2.1).
#[derive(Debug, Drop)]
pub enum Message {
    Request(Request),
    Reply(Reply),
}

impl Message {
    ghost use Rattle.std.specs.Prelude.{◌≡◌};
    ghost use Rattle.fed_http.specs.Keeping.{with_body};

    /// The same with this body. It takes no memory.
    pub fn with_body(self, body: Vec<u8>) -> Message
        ensures { result ≡ with_body self body.items }
    {
        match self {
            Message::Request(request) => Message::Request(request.with_body(body)),
            Message::Reply(reply) => Message::Reply(Reply::new(reply.status(), body)),
        }
    }
}
