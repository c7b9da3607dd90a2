// What all threads of a run know.
use crate::faults::FirstFault;
use crate::load::Load;
use fed_hub::Muster;
use fed_tcp::Door;

/// What all threads of a run know: how much is sent, where the other server serves, and the first fault that one of them met.
#[derive(Drop)]
pub(crate) struct Course {
    pub(crate) load: Load,
    pub(crate) door: Door,
    pub(crate) faults: FirstFault,
    /// Both servers.
    pub(crate) muster: Muster,
}
