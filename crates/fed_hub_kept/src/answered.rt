// The history of an inbox, compared with what its threads answered.
ghost use Rattle.std.specs.Prelude.{◌≡◌, ◌↔◌, IsTrue, IfOk, map};
ghost use Rattle.fed_hub_kept.specs.Answered.{AreAnswered};

use fed_hub_serving::{AnsweredRequest, KeptPoint, ServeToken, ServingNaming};
use fed_hub_told::are_as_told;
use fed_json::NoMemory;
use std::alloc::Global;

/// Whether the points of an inbox's history are the requests that all threads that serve answered: the numbers that each thread holds rise; over
/// all threads they are those from 1 to the count of the points, each once; and the point of each number is of that request, with that reply.
///
/// Its steps are linear in the count of the points and of the requests that were answered, and in the size of these.
///
/// # Errors
///
/// `NoMemory`, where the marks or the list of what each thread answered has no memory.
pub fn are_answered<N: ServingNaming>(
    alloc: Global,
    tokens: &[ServeToken<N>],
    points: &[KeptPoint],
) -> Result<bool, NoMemory>
    ensures { IfOk result (λ are. IsTrue are ↔ AreAnswered points.now tokens.now) }
{
    let answered = answered_by_each(alloc, tokens)?;
    are_as_told(alloc, &answered, points)
}

// The requests that each thread answered.
fn answered_by_each<N: ServingNaming>(
    alloc: Global,
    tokens: &[ServeToken<N>],
) -> Result<Vec<&[AnsweredRequest]>, NoMemory>
    ensures { IfOk result (λ each. map (λ answered. answered.now) each.items ≡ tokens.now) }
{
    let mut each = Vec::with_capacity(alloc, tokens.len())?;
    for token in tokens {
        each.push(token.answered())?;
    }
    Ok(each)
}
