// Wires that nobody has used.
ghost use Rattle.std.specs.Prelude.{◌≡◌, length, IfOk};
ghost use Rattle.fed_hub.specs.Wires.{wires_of, new_senders, new_receivers};

use fed_json::NoMemory;
use fed_wires::{Numbering, ReceiveEnd, SendEnd, wire};
use std::alloc::Global;

/// The ends that send, and those that receive, of so many new wires, in one order.
pub(crate) fn wires<T: Drop, M: Numbering<T>>(
    alloc: Global,
    count: usize,
) -> Result<(Vec<SendEnd<T, M>>, Vec<ReceiveEnd<T, M>>), NoMemory>
    ensures count { IfOk result (λ r. length (wires_of r.0.items) ≡ count) }
    ensures send { IfOk result (λ r. r.0.items ≡ new_senders (wires_of r.0.items)) }
    ensures receive { IfOk result (λ r. r.1.items ≡ new_receivers (wires_of r.0.items)) }
{
    let mut ends = Vec::with_capacity(alloc, count)?;
    let mut others = Vec::with_capacity(alloc, count)?;
    for _ in 0..count {
        let (end, other) = wire(alloc)?;
        ends.push(end)?;
        others.push(other)?;
    }
    Ok((ends, others))
}
