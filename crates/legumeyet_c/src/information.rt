//! What errors mean, and the versions: `legumeyet_error_text`, `legumeyet_version`, `legumeyet_minor`.

ghost use Rattle.std.specs.Prelude.{◌≡◌};
ghost use Rattle.legumeyet_c_values.specs.Information.{IsInformationFault, SaysError};
ghost use Rattle.legumeyet_c_values.specs.Putting.{Answers, IsPut};

use legumeyet_c_values::{CallError, error_of, put, status_of};

/// The version of the header: another one would break programs, while calls and numbers that are added leave it.
pub const VERSION: u32 = 2;

/// The minor version of the header, which rises when a call or a number is added.
pub const MINOR: u32 = 1;

/// Writes what a number of a call means, in English: of 5 `no locale tag`.
///
/// Returns 0; 4, where no call returns the number; 3, the text needs more room.
#[unsafe(no_mangle)]
pub extern "C" fn legumeyet_error_text(error: i32, out: &mut [u8], length: &mut usize) -> i32
    ensures { Answers (IsPut (SaysError error) (IsInformationFault error) out.old out.new length.old length.new)
        result }
{
    match error_of(error) {
        Some(error) => status_of(put(&error.text(), out, length)),
        None => CallError::UnknownOption.number(),
    }
}

/// The version of the library: that of the header that it was built with.
#[unsafe(no_mangle)]
pub extern "C" fn legumeyet_version() -> u32
    ensures { result ≡ 2 }
{
    VERSION
}

/// The minor version of the library: that of the header that it was built with.
#[unsafe(no_mangle)]
pub extern "C" fn legumeyet_minor() -> u32
    ensures { result ≡ 1 }
{
    MINOR
}
