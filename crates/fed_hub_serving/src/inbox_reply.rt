// What an inbox answers under its lock.
use fed_http::Reply;

/// The reply of an inbox to a request, and the number of the request's point in the history of the inbox: from 1, the length of the history
/// with this point. There is none where memory ran out: the reply is of 500 then, and the history is as it was.
#[derive(Drop)]
pub struct InboxReply {
    pub reply: Reply,
    pub number: Option<u64>,
}
