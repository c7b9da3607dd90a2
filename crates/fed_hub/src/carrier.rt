// What brings requests to other servers.
ghost use Rattle.std.specs.Prelude.{ℕ, ◌<◌, ◌≤◌, OnErr};

use fed_dest::ServerIndex;
use std::alloc::Global;
use thiserror::Error;

/// Why an exchange gave no reply.
#[derive(Clone, Copy, Debug, PartialEq, Eq, Error)]
pub enum CarrierFault {
    /// Memory ran out.
    #[error("out of memory")]
    Memory,
    /// The request could not be brought, or no whole reply came.
    #[error("the exchange failed")]
    Failed,
}

/// Brings requests to other servers and their replies back: over sockets, say, or within a test.
pub trait Carrier {
    // how many exchanges gave no reply
    ghost faults: { Self → ℕ };

    /// Brings the bytes of a request to a server, and gives the bytes of its reply. It may wait for as long as it sees fit; no lock is held
    /// meanwhile.
    ///
    /// # Errors
    ///
    /// `Failed` where no reply came, after which the same request is brought again later; `Memory` where memory ran out.
    fn exchange(
        &mut self,
        alloc: Global,
        dest: ServerIndex,
        request: &[u8],
    ) -> Result<Vec<u8>, CarrierFault>
        ensures counted { OnErr result (faults self.old < faults self.new) }
        ensures never_less { faults self.old ≤ faults self.new };
}

/// A count of the faults of a carrier, for those who write one.
#[derive(Clone, Copy, Debug, PartialEq, Eq)]
pub struct FaultCount {
    pub count: u64,
}

impl FaultCount {
    ghost use Rattle.std.specs.Prelude.{◌≡◌, [], IfOk, IfErr};

    /// No fault.
    pub fn new() -> FaultCount
        ensures { result.count ≡ 0 }
    {
        FaultCount { count: 0 }
    }

    /// Counts a fault, and gives what an exchange answers by it. Once 2^64 - 1 are counted that is an empty reply, which nobody can read, and
    /// so a failure too.
    pub fn fail(&mut self, alloc: Global, fault: CarrierFault) -> Result<Vec<u8>, CarrierFault>
        ensures counted { IfErr result (λ told. (told ≡ fault) × (self.old.count < self.new.count)) }
        ensures never_less { self.old.count ≤ self.new.count }
        ensures empty { IfOk result (λ reply. reply.items ≡ []) }
    {
        match self.count.checked_add(1) {
            Some(count) => {
                self.count = count;
                Err(fault)
            }
            None => Ok(Vec::new(alloc)),
        }
    }
}
