//! Messages of HTTP/1.1 between Matrix servers (RFC 9112): what they are, how they are read from a stream of pieces, how they are signed
//! and written.
//!
//! A message is a head, as `httparse` reads it, and a body, which the head's fields frame in one way or not at all: what could be read in
//! two ways is refused. The texts of messages, and the faults of bytes that begin none, are definitions that the reader's contract names;
//! the laws say that texts are read in one way, that faults are final, and that the cutting of the stream does not matter.
//!
//! - `field`: `Field`, a field of a message
//! - `request`, `reply`: `Request` and `Reply`
//! - `message`: `Message`, either of both, and `Kind`, which of them a connection carries
//! - `fault`: `HttpFault`, why bytes are no message, and the reply to each
//! - `limits`: how large a message may be
//! - `unfinished`: the lines of a head or a trailer that has not ended
//! - `head`: where the head of a message is
//! - `framing`: `Framing`, how the end of a body is found
//! - `chunks`: the chunks of a body
//! - `finding`: where a message ends, found without memory
//! - `copying`: from the parts of a request's head to owned ones
//! - `opening`: from the bytes of a head to its owned parts
//! - `place`, `text_place`, `state`: where in a message, and in a head, a chunk line or a trailer, the bytes so far end, and what is kept of them
//! - `reader`: `Reader`, which reads messages from a stream of pieces
//! - `laws`: what holds of all messages and their texts, and `read_message`, the plain program of it
//! - `writing`: from messages to their bytes, and `phrase`, the phrase of a status
//! - `front`: the first bytes of a reply, gathered to be written at once
//! - `sending`: from a reply to a writer, without memory
//! - `x_matrix`: `XMatrix`, what the Authorization field of a request says, and what is signed for a request
#![tactic(auto)]

mod chunks;
mod copying;
mod fault;
mod field;
mod finding;
mod framing;
mod front;
mod head;
mod laws;
mod limits;
mod message;
mod opening;
mod place;
mod reader;
mod reply;
mod request;
mod sending;
mod state;
mod text_place;
mod unfinished;
mod writing;
mod x_matrix;

pub use fault::HttpFault;
pub use field::Field;
pub use framing::Framing;
pub use laws::{
    bytes_have_one_fault, cutting_does_not_matter, faults_are_final, faults_stay, read_message,
    texts_are_read_in_one_way, who_waits_has_no_fault, who_waits_has_no_message,
};
pub use limits::{MAX_BODY, MAX_FIELDS, MAX_HEAD, MAX_LENGTH_DIGITS};
pub use message::{Kind, Message};
pub use reader::Reader;
pub use reply::Reply;
pub use request::Request;
pub use sending::{send_reply, send_reply_to, write_whole};
pub use writing::{phrase, write_reply, write_request};
pub use x_matrix::{
    AuthFault, SignFault, XMatrix, is_signed, one_header, request_text, sign, sign_request,
    signed_request, signed_requests_are_read, signed_requests_check,
};
