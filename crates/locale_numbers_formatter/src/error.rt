//! Why an exact form is refused.

ghost use Rattle.std.specs.Prelude.{◌≡◌};
ghost use Rattle.locale_numbers_formatter.specs.ExactErrors.{exact_error_number};

use thiserror::Error;

/// Why a number with an exponent of the caller's choice is not written: `Exponent` of 1.2 and 5 in English, where it is 3.
#[derive(Clone, Copy, Debug, Drop, PartialEq, Eq, Error)]
pub enum ExactError {
    /// The magnitude of both together is above 32767: of 10^32767 and 1 in a compact format.
    #[error("the number is beyond the limits")]
    Range,
    /// The exponent is not that of the pattern of this magnitude, as 5 of 1.2; where the format has no patterns, it is not
    /// 0; or the format is one of scientific numbers.
    #[error("the exponent is not that of the pattern")]
    Exponent,
}

impl ExactError {
    /// The number of the error: 1 of `Range`, 2 of `Exponent`. It does not allocate.
    pub fn number(&self) -> u8
        ensures { result ≡ exact_error_number self.now }
    {
        match *self {
            ExactError::Range => 1,
            ExactError::Exponent => 2,
        }
    }
}
