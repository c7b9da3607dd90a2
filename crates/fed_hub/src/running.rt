// A hub whose threads are a crew's.
ghost use Rattle.std.specs.Prelude.{◌≡◌, true, IsErr, IsErrOf};
ghost use Rattle.fed_dest.specs.List.{has_doubled};
ghost use Rattle.fed_hub.specs.declared.faults.HubFault.TheVariants.{BadSetup};
ghost use Rattle.fed_hub.specs.Named.{AreNamesOf};
ghost use Rattle.fed_hub.specs.Setup.{has_own_fault, ids_of, is_bad_setup};

use crate::crew::{Crew, each_in_a_thread};
use crate::faults::{FinishFault, HubFault};
use crate::hub::Hub;
use crate::opened::Opened;
use crate::report::Report;
use crate::setup::Setup;
use crate::tokens::Tokens;
use fed_event::Keys;
use fed_hub_serving::ServingNaming;
use fed_hub_state::Naming;
use std::alloc::Global;
use std::marker::Brand;
use std::sync::Wait;
use std::thread::Threads;

/// What comes of the work of a crew. Its type stands here and not in `Crew`: threads can't be lent what has a bound with a type of its own.
pub trait Outcome<K: Keys + Drop> {
    /// What comes of it.
    type Out: Drop;

    /// Whether the threads run once more, asked when all have returned. What it does with the hub and the tokens until then is done by one thread.
    fn runs_on<N: Naming + ServingNaming>(
        &mut self,
        _alloc: Global,
        _hub: &Hub<N, K>,
        _tokens: &mut Tokens<N>,
    ) -> bool {
        false
    }

    /// Whether the threads run once more where the hub does not end for this reason: what is missing may be made up for.
    fn goes_on(&mut self, _alloc: Global, _fault: FinishFault) -> bool {
        false
    }

    /// What comes of it, by what the hub did once all threads have returned, or by why it did not end.
    fn end<N: Naming + ServingNaming>(
        self,
        alloc: Global,
        ended: Result<Report<N>, FinishFault>,
    ) -> Self::Out;
}

/// Makes a hub for so many clients and readers of the board, as `Hub::new`, runs a thread of the crew for each of its tokens, and ends it once all
/// have returned, as `Hub::finish`. Where the system makes no more threads, some run one after another.
///
/// # Errors
///
/// Those of `Hub::new`; the crew is let go then.
pub fn run_crew<K, C, R>(
    rt: &R,
    alloc: Global,
    setup: Setup<K>,
    clients: u64,
    readers: usize,
    crew: C,
) -> Result<C::Out, HubFault>
where
    K: Keys + Drop + Sync,
    C: Crew<K> + Outcome<K> + Drop + Sync,
    R: Threads + Wait + Sync,
    ensures own { has_own_fault setup.list setup.own (K.own_name setup.keys) ≡ true → IsErr result }
    ensures doubled { has_doubled (ids_of setup.rooms.items) ≡ true → IsErr result }
    ensures bad_only { IsErrOf result BadSetup → is_bad_setup setup.list setup.own (K.own_name setup.keys) setup.rooms.items ≡ true }
{
    let opened = Opened::new(alloc, setup.list.len(), setup.rooms.len(), clients, readers)?;
    // `Brand` stands for the names of what the threads share, which the proof of this call gives.
    run_named_crew::<Brand, K, C, R>(rt, alloc, setup, opened, crew)
}

// The same, with the names of what the threads share.
fn run_named_crew<N, K, C, R>(
    rt: &R,
    alloc: Global,
    setup: Setup<K>,
    opened: Opened,
    crew: C,
) -> Result<C::Out, HubFault>
where
    N: Naming + ServingNaming + Send + Sync,
    K: Keys + Drop + Sync,
    C: Crew<K> + Outcome<K> + Drop + Sync,
    R: Threads + Wait + Sync,
    requires named { AreNamesOf setup.own setup.list (ids_of setup.rooms.items) (K.checks setup.keys) opened N.wires N.own N.board N.events N.edus N.parts N.known N.rooms N.checks N.receiver N.beginning }
    ensures own { has_own_fault setup.list setup.own (K.own_name setup.keys) ≡ true → IsErr result }
    ensures doubled { has_doubled (ids_of setup.rooms.items) ≡ true → IsErr result }
    ensures bad_only { IsErrOf result BadSetup → is_bad_setup setup.list setup.own (K.own_name setup.keys) setup.rooms.items ≡ true }
{
    let (hub, tokens) = Hub::<N, K>::new(alloc, setup, opened)?;
    Ok(run_and_end(rt, alloc, hub, tokens, crew))
}

// Runs all threads until the hub ends, or is given up.
fn run_and_end<N, K, C, R>(
    rt: &R,
    alloc: Global,
    mut hub: Hub<N, K>,
    mut tokens: Tokens<N>,
    mut crew: C,
) -> C::Out
where
    N: Naming + ServingNaming + Send + Sync,
    K: Keys + Drop + Sync,
    C: Crew<K> + Outcome<K> + Drop + Sync,
    R: Threads + Wait + Sync,
{
    for _ in rt.forever() {
        each_in_a_thread(rt, &hub, &mut tokens, &crew);
        if crew.runs_on(alloc, &hub, &mut tokens) {
            continue;
        }
        match hub.finish(alloc, tokens) {
            Ok(report) => return crew.end(alloc, Ok(report)),
            Err((same_hub, same_tokens, fault)) => {
                if !crew.goes_on(alloc, fault) {
                    return crew.end(alloc, Err::<Report<N>, FinishFault>(fault));
                }
                hub = same_hub;
                tokens = same_tokens;
            }
        }
    }
    unreachable!()
}
