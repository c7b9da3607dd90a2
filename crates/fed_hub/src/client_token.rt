// What a client's thread holds.
ghost use Rattle.std.specs.Prelude.{◌≡◌, [], length};
ghost use Rattle.fed_hub.specs.ClientToken.{IsNew, client_new};

use fed_hub_state::Naming;
use fed_hub_told::{Client, Told};
use std::alloc::Global;
use std::marker::Model;

/// What a client's thread holds: all that the client was told of what it sent and offered, and its parts of the hub's ledgers.
///
/// Contracts see what it was told.
#[derive(Drop)]
pub struct ClientToken<N: Naming> {
    pub(crate) share: fed_hub_state::ClientToken<N>,
    pub(crate) told: Told,
}

impl<N: Naming> Model for ClientToken<N> {
    ghost use Rattle.std.specs.Prelude.{◌≡◌};
    ghost use Rattle.fed_hub_told.specs.Told.{ToldState, told_code};
    ghost use Rattle.fed_hub.specs.ClientToken.{share_of};

    ghost Value = { ToldState };

    ghost coded = { told_code };

    ghost view = { λ t. t.told };

    ghost invariant = { λ t. t.share ≡ share_of t.told };
}

impl<N: Naming> ClientToken<N> {
    /// The token of a client that was told of nothing.
    pub(crate) fn new(alloc: Global, share: fed_hub_state::ClientToken<N>) -> ClientToken<N>
        requires { share ≡ client_new }
        ensures { IsNew result }
    {
        ClientToken {
            share,
            told: Told::new(alloc),
        }
    }

    /// All that the client was told, in order.
    pub fn told(&self) -> &Told
        ensures { result.now ≡ self.now }
    {
        &self.told
    }
}

impl<N: Naming> Client for ClientToken<N> {
    ghost told = { λ told. told };

    fn told(&self) -> &Told {
        &self.told
    }
}
