// From an answer to the caller's buffer.
ghost use Rattle.std.specs.Prelude.{◌≡◌, ◌≢◌, ℕ, List, length, Result, Ok, Err, IfOk, IfErr};
ghost use Rattle.fed_c.specs.Output.{Gives, HoldsBytes, IsRefused, filled, buffer_status};
ghost use Rattle.fed_c.specs.declared.status.Status.TheVariants.{Memory};

use crate::status::Status;

/// What a call makes: bytes, or how it ends without them.
pub(crate) type Answer = Result<Vec<u8>, Status>;

/// Gives an answer to the caller, and returns the number of the status: the bytes where the buffer is large enough for them, and how many
/// they are in either case. Of an answer without bytes nothing is written.
pub(crate) fn give(answer: Answer, out: &mut [u8], needed: &mut usize) -> u32
    ensures gives { (wanted : Result (List ℕ) Status)
        → IfOk answer (λ bytes. wanted ≡ Ok bytes.items)
        → IfErr answer (λ status. status ≢ Memory → wanted ≡ Err status)
        → Gives wanted result (record { before = out.old; after = out.new; told_before = needed.old; told = needed.new }) }
    ensures given { IfOk answer (λ bytes. HoldsBytes bytes.items result (record { before = out.old; after = out.new; told_before = needed.old; told = needed.new })) }
    ensures refused { IfErr answer (λ why. IsRefused why result (record { before = out.old; after = out.new; told_before = needed.old; told = needed.new })) }
{
    match answer {
        Ok(bytes) => fill(&bytes, out, needed).number(),
        Err(status) => status.number(),
    }
}

// Writes the bytes where the buffer is large enough for them, and how many they are.
fn fill(bytes: &[u8], out: &mut [u8], needed: &mut usize) -> Status
    ensures status { result ≡ buffer_status bytes.now out.old }
    ensures buffer { out.new ≡ filled bytes.now out.old }
    ensures told { needed.new ≡ length bytes.now }
{
    *needed = bytes.len();
    if bytes.len() > out.len() {
        return Status::BufferTooSmall;
    }
    out[..bytes.len()].copy_from_slice(bytes);
    Status::Done
}
