// How a journal is shut down, and what shows that it was.
ghost use Rattle.std.specs.Prelude.{◌≡◌, true, MatchResult};
ghost use Rattle.fed_hub_state.specs.CloseFault.{CloseFullIsOf};

use fed_dest::ServerIndex;
use fed_hub_state::{CloseFault, Naming, SendingJournal, sections};
use std::marker::PhantomData;
use std::sync::Wait;

/// Shows that the journal of a hub was shut down, as it stays then. Only `shut_down` makes one.
#[derive(Drop)]
pub(crate) struct WasShut<N> {
    of: PhantomData<N>,
}

/// Shuts a journal down, as the section.
pub(crate) fn shut_down<N: Naming, R: Wait>(
    rt: &R,
    journal: &mut SendingJournal<N>,
    own: ServerIndex,
) -> Result<WasShut<N>, CloseFault>
    requires { own ≡ N.own }
    ensures { MatchResult result (λ _. journal.new.is_shut ≡ true) (λ fault. CloseFullIsOf N.wires fault) }
{
    sections::shut_down(rt, journal, own)?;
    Ok(WasShut { of: PhantomData })
}
