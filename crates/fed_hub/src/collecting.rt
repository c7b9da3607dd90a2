// How parcels go from a wire into the outbox of their destination.
ghost use Rattle.std.specs.Prelude.{◌≡◌, ◌≢◌, IsTrue, IsSome};
ghost use Rattle.fed_hub.specs.declared.collected.Collected.TheVariants.{Nothing};
ghost use Rattle.fed_journal.specs.Loads.{is_end};
ghost use Rattle.fed_hub.specs.Collecting.{Collects, MovesIn, told_of};
ghost use Rattle.fed_hub.specs.Held.{GoesOn};

use crate::collected::Collected;
use crate::hub::Hub;
use crate::tokens::SenderToken;
use fed_event::Keys;
use fed_hub_serving::ServingNaming;
use fed_hub_state::{Naming, SeatedOutbox, sections};
use fed_journal::Load;
use fed_outbox::OutboxFault;
use std::sync::Wait;

impl<N: Naming + ServingNaming, K: Keys + Drop> Hub<N, K> {
    /// Moves the next parcel for the token's destination from its wire into its outbox. With `wait` it waits for one, where none is in hand,
    /// or until the other end of the wire is gone.
    pub fn collect<R: Wait>(&self, rt: &R, token: &mut SenderToken<N>, wait: bool) -> Collected
        ensures collected { Collects token.old result token.new }
        ensures goes_on { GoesOn token.old token.new }
        ensures waited { IsTrue wait → result ≢ Nothing }
    {
        match token.take_out(rt, wait) {
            Some(told) => told,
            None => {
                let outbox = &self.outboxes[token.dest.place()];
                move_in(&mut outbox.lock(rt), token)
            }
        }
    }
}

// Moves the parcel in hand into its outbox, or leaves it in hand.
fn move_in<N: Naming>(outbox: &mut SeatedOutbox<N>, token: &mut SenderToken<N>) -> Collected
    requires hand { IsSome token.old.hand }
    ensures { MovesIn outbox.old token.old result outbox.new token.new }
{
    // There is one.
    let parcel = token.hand.take().unwrap();
    let is_end = is_end(&parcel.load);
    match sections::collect(outbox, parcel) {
        Ok(()) => {
            token.ended = is_end;
            Collected::Moved
        }
        Err((parcel, fault)) => {
            token.hold(parcel);
            told_of(fault)
        }
    }
}

// Whether nothing comes behind a parcel with this load.
fn is_end(load: &Load) -> bool
    ensures { result ≡ is_end load.now }
{
    match load {
        Load::Event(_) => false,
        Load::Edu(_) => false,
        Load::End => true,
    }
}

// What is told of a parcel that is not accepted.
fn told_of(fault: OutboxFault) -> Collected
    ensures { result ≡ told_of fault }
{
    match fault {
        OutboxFault::Memory => Collected::Memory,
        OutboxFault::WrongPlace(_) => Collected::Closed,
        OutboxFault::Ended => Collected::Closed,
    }
}
