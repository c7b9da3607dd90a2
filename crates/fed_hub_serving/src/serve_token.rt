// What a thread that serves holds.
ghost use Rattle.std.specs.Prelude.{◌≡◌, ◌<◌, [], ◌++◌, ◌∷◌, IfOk, length, vec_capacity};
ghost use Rattle.fed_hub_serving.specs.Answered.{answered_by, with_answered};

use crate::comparing::{are_equal_replies, are_equal_requests};
use crate::inbox_reply::InboxReply;
use crate::kept_point::KeptPoint;
use crate::naming::ServingNaming;
use fed_http::{Reply, Request};
use fed_hub_told::Note;
use fed_json::NoMemory;
use std::alloc::Global;
use std::marker::{Model, PhantomData};

/// A request that a server answered, with its reply, and the number of its point in the history of the inbox.
#[derive(Drop)]
pub struct AnsweredRequest {
    request: Request,
    reply: Reply,
    number: u64,
}

impl Model for AnsweredRequest {
    ghost use Rattle.fed_hub_serving.specs.Answered.{AnsweredValue, answered_code};

    ghost Value = { AnsweredValue };

    ghost coded = { answered_code };

    ghost view = { λ a. record { request = a.request; reply = a.reply; number = a.number } };
}

impl AnsweredRequest {
    pub(crate) fn new(request: Request, reply: Reply, number: u64) -> AnsweredRequest
        ensures { result ≡ answered_by request reply number }
    {
        AnsweredRequest {
            request,
            reply,
            number,
        }
    }

    /// The request.
    pub fn request(&self) -> &Request
        ensures { result.now ≡ self.now.request }
    {
        &self.request
    }

    /// The reply to it.
    pub fn reply(&self) -> &Reply
        ensures { result.now ≡ self.now.reply }
    {
        &self.reply
    }

    /// The number of its point in the history of the inbox, from 1.
    pub fn number(&self) -> u64
        ensures { result ≡ self.now.number }
    {
        self.number
    }
}

impl Note<KeptPoint> for AnsweredRequest {
    ghost use Rattle.fed_hub_serving.specs.Answered.{IsPointOf};

    ghost number = { λ answered. answered.number };

    ghost IsOf = { IsPointOf };

    fn number(&self) -> u64 {
        self.number
    }

    fn is_of(&self, point: &KeptPoint) -> Result<bool, NoMemory> {
        Ok(
            are_equal_requests(point.request(), &self.request)
                && are_equal_replies(point.reply(), &self.reply),
        )
    }
}

/// What a thread that serves holds: the requests that it answered, each with its reply and the number of its point, in order; those that it
/// answered 500 are not among them.
///
/// Contracts see it as these.
#[derive(Drop)]
pub struct ServeToken<N: ServingNaming> {
    pub(crate) answered: Vec<AnsweredRequest>,
    of: PhantomData<N>,
}

impl<N: ServingNaming> Model for ServeToken<N> {
    ghost use Rattle.std.specs.Prelude.{List};
    ghost use Rattle.std.specs.Coded.{coded_list};
    ghost use Rattle.fed_hub_serving.specs.Answered.{AnsweredValue, answered_code};

    ghost Value = { List AnsweredValue };

    ghost coded = { coded_list answered_code };

    ghost view = { λ t. t.answered.items };
}

impl<N: ServingNaming> ServeToken<N> {
    /// The token of a thread that answered no request. It takes no memory.
    pub fn new(alloc: Global) -> ServeToken<N>
        ensures { result ≡ [] }
    {
        ServeToken {
            answered: Vec::new(alloc),
            of: PhantomData,
        }
    }

    /// The requests that were answered, in order.
    pub fn answered(&self) -> &[AnsweredRequest]
        ensures { result.now ≡ self.now }
    {
        &self.answered
    }
}

/// Makes room for one more request among those that were answered, and an equal one.
pub(crate) fn make_room(
    alloc: Global,
    answered: &mut Vec<AnsweredRequest>,
    request: &Request,
) -> Result<Request, NoMemory>
    ensures same { answered.new.items ≡ answered.old.items }
    ensures copy { IfOk result (λ copy. copy ≡ request.now) }
    ensures room { IfOk result (λ _. length answered.new.items < vec_capacity answered.new) }
{
    answered.reserve(1)?;
    request.copy(alloc)
}

/// Keeps a request that was answered, for which there is room, with the number of its point; but not one that has none.
pub(crate) fn keep(answered: &mut Vec<AnsweredRequest>, request: Request, answer: InboxReply)
    requires { length answered.old.items < vec_capacity answered.old }
    ensures { answered.new.items ≡ with_answered answered.old.items request answer.reply answer.number }
{
    let InboxReply { reply, number } = answer;
    if let Some(number) = number {
        // There is room for it.
        answered
            .push(AnsweredRequest::new(request, reply, number))
            .unwrap();
    }
}
