// Who holds what a client was told.
ghost use Rattle.std.specs.Prelude.{◌≡◌};

use crate::told::Told;

/// Who holds all that one client was told.
pub trait Client {
    ghost use Rattle.fed_hub_told.specs.Told.{ToldState};

    // all that the client was told
    ghost told: { Self → ToldState };

    /// All that the client was told.
    fn told(&self) -> &Told
        ensures { result.now ≡ told self.now };
}

impl Client for Told {
    ghost told = { λ told. told };

    fn told(&self) -> &Told {
        self
    }
}
