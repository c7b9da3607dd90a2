//! The number of this interface.
ghost use Rattle.std.specs.Prelude.{◌≡◌};
ghost use Rattle.fed_c.specs.Version.{version};

/// The number of the interface: of the functions, what each is given and answers, and the numbers of statuses, fields and parts. It grows where one of
/// these changes in a way that a program for the interface before it would not expect.
const VERSION: u32 = 3;

/// The number of the interface that the library has.
#[unsafe(no_mangle)]
pub extern "C" fn wikzord_version() -> u32
    ensures { result ≡ version }
{
    VERSION
}
