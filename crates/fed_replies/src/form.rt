// The form in which a reply is kept.
ghost use Rattle.std.specs.Prelude.{◌≡◌, ◌↔◌, Some, OnErr, IfOk};
ghost use Rattle.std.specs.List.{count_by};
ghost use Rattle.fed_txn.specs.Verdicts.{VerdictMap};
ghost use Rattle.fed_replies.specs.Forms.{IsFormOf, IsWithin, is_packed, reply_of};
ghost use Rattle.fed_replies.specs.PackedReply.{IsCanonicalReply};

use crate::pieces::{Ends, Pieces};
use fed_json::NoMemory;
use fed_txn::{ReplyFault, Verdicts, read_reply, write_reply};
use std::alloc::Global;

/// A reply: where its events lie in the pieces and how many bytes it has, or its bytes.
#[derive(Drop)]
pub(crate) enum Form {
    Packed(Ends, Ends, usize),
    Whole(Vec<u8>),
}

impl Form {
    /// Whether the reply is packed.
    pub(crate) fn is_packed(&self) -> bool
        ensures { result ≡ is_packed self.now }
    {
        match self {
            Form::Packed(..) => true,
            Form::Whole(_) => false,
        }
    }
}

/// How many of the replies are packed.
pub(crate) fn packed_count(forms: &[Form]) -> usize
    ensures { result ≡ count_by is_packed forms.now }
{
    forms.iter().filter(|form| form.is_packed()).count()
}

/// The form of a reply, whose verdicts are entered into the pieces where it can be packed. An error leaves the pieces as they were.
pub(crate) fn form_of(alloc: Global, pieces: &mut Pieces, reply: &[u8]) -> Result<Form, NoMemory>
    ensures form { IfOk result (λ form. IsFormOf pieces.old reply.now form pieces.new) }
    ensures err { OnErr result (pieces.new ≡ pieces.old) }
{
    pieces.prepare(alloc)?;
    form_once_prepared(alloc, pieces, reply)
}

// The same, where the pieces are prepared.
//
// A reply of which nothing is escaped, as nearly all are, is read where it lies; any other is read as JSON and written again.
fn form_once_prepared(alloc: Global, pieces: &mut Pieces, reply: &[u8]) -> Result<Form, NoMemory>
    ensures form { IfOk result (λ form. IsFormOf pieces.old reply.now form pieces.new) }
    ensures err { OnErr result (pieces.new ≡ pieces.old) }
{
    let start = pieces.mark().ends;
    if pieces.enter_plain(alloc, reply)? {
        return Ok(Form::Packed(start, pieces.mark().ends, reply.len()));
    }
    form_of_read(alloc, pieces, reply)
}

// The same, for any reply: it is read as JSON and written again.
fn form_of_read(alloc: Global, pieces: &mut Pieces, reply: &[u8]) -> Result<Form, NoMemory>
    ensures form { IfOk result (λ form. IsFormOf pieces.old reply.now form pieces.new) }
    ensures err { OnErr result (pieces.new ≡ pieces.old) }
{
    let start = pieces.mark().ends;
    if let Some(verdicts) = canonical_verdicts(alloc, reply)? {
        if pieces.enter_all(alloc, &verdicts)? {
            return Ok(Form::Packed(start, pieces.mark().ends, reply.len()));
        }
    }
    Ok(Form::Whole(Vec::from_slice(alloc, reply)?))
}

// The verdicts of a reply that is just what is written of them.
fn canonical_verdicts(alloc: Global, reply: &[u8]) -> Result<Option<Verdicts>, NoMemory>
    ensures { IfOk result (λ read. (verdicts : VerdictMap) → IsCanonicalReply reply.now verdicts ↔ (read ≡ Some verdicts)) }
{
    let verdicts = match read_reply(alloc, reply) {
        Ok(verdicts) => verdicts,
        Err(ReplyFault::NotReply) => return Ok(None),
        Err(ReplyFault::Memory) => return Err(NoMemory),
    };
    if write_reply(alloc, &verdicts)?.as_slice() != reply {
        return Ok(None);
    }
    Ok(Some(verdicts))
}

/// The bytes of the reply that is kept in a form.
pub(crate) fn reply_of(alloc: Global, pieces: &Pieces, form: &Form) -> Result<Vec<u8>, NoMemory>
    requires { IsWithin pieces.now form.now }
    ensures { IfOk result (λ reply. reply.items ≡ reply_of pieces.now form.now) }
{
    match form {
        Form::Packed(start, end, size) => pieces.reply(alloc, *start, *end, *size),
        Form::Whole(bytes) => Ok(Vec::from_slice(alloc, bytes)?),
    }
}
