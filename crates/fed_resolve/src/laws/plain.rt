// The plain program of what several states resolve to.
ghost use Rattle.std.specs.Prelude.{◌≡◌, IfOk};
ghost use Rattle.fed_resolve.specs.Resolution.{resolved_of};

use crate::order::Listing;
use crate::resolution::resolve_by;
use fed_json::NoMemory;
use fed_room_contract::{Graph, State};
use std::alloc::Global;

/// The state that several states of a room resolve to, as `resolve` gives it.
///
/// This is the plain program of it: what comes next in the two orders is looked for among all that are left, each time anew. It takes time in
/// proportion to the square of the full conflicted set.
///
/// # Errors
///
/// `NoMemory`.
pub fn resolve_plainly(alloc: Global, graph: &Graph, states: &[State]) -> Result<State, NoMemory>
    ensures { IfOk result (λ state. state ≡ resolved_of graph.now.stored states.now) }
{
    resolve_by(alloc, Listing::Plain, graph, states)
}
