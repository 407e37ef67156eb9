//! Why a decimal has no scientific form, or a scientific number is no decimal.

ghost use Rattle.std.specs.Prelude.{◌≡◌};
ghost use Rattle.icu_decimal_scientific.specs.Scientific.{range_error_number};

use thiserror::Error;

/// A digit would be beyond those of a decimal.
///
/// A decimal has no scientific form where a digit of its significand would be below the magnitude -32768, as of 1000 with
/// 32768 digits after the point, of which the last is not zero. A significand and an exponent are no decimal where a digit
/// of it would be above the magnitude 32767, as of 1 and 32768, or one that is not zero below -32768.
#[derive(Clone, Copy, Debug, Drop, PartialEq, Eq, Error)]
#[error("beyond the digits of a decimal")]
pub struct RangeError;

impl RangeError {
    /// The number of the error, 1. It does not allocate.
    pub fn number(&self) -> u8
        ensures { result ≡ range_error_number }
    {
        1
    }
}
