// What is on its way from one server to another.
use fed_dest::ServerIndex;
use fed_http::Reply;

/// What was sent from one server to another, for a transaction of this number from `server` to `dest`. It stays for good.
#[derive(Drop)]
pub enum Packet {
    /// The bytes of the request that brings the transaction.
    Request {
        server: ServerIndex,
        dest: ServerIndex,
        number: u64,
        bytes: Vec<u8>,
    },
    /// The answer to it.
    Answer {
        server: ServerIndex,
        dest: ServerIndex,
        number: u64,
        reply: Reply,
    },
}
