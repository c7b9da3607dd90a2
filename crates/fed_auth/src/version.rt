// Which room versions are known.
ghost use Rattle.std.specs.Prelude.{◌≡◌};
ghost use Rattle.fed_auth.specs.Version.{is_known_version};

use fed_event::Version;

/// Whether a room version of this name is known.
pub fn is_known_version(name: &str) -> bool
    ensures { result ≡ is_known_version name.now }
{
    Version::read(name).is_some()
}
