//! The versions of rooms by the numbers that C gives.
ghost use Rattle.std.specs.Prelude.{◌≡◌, Ok, Err, IfOk, IfErr};
ghost use Rattle.fed_c.specs.RoomVersion.{version_in};

use crate::status::Status;
use fed_redaction::Version;

/// The version of this number.
///
/// # Errors
///
/// `BadVersion` where it is neither 10 nor 11.
pub(crate) fn room_version(number: u32) -> Result<Version, Status>
    ensures ok { IfOk result (λ version. version_in number ≡ Ok version) }
    ensures fault { IfErr result (λ status. version_in number ≡ Err status) }
{
    match number {
        10 => Ok(Version::V10),
        11 => Ok(Version::V11),
        _ => Err(Status::BadVersion),
    }
}
