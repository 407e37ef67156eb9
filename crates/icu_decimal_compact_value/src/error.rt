//! Why an exact form is refused.

ghost use Rattle.std.specs.Prelude.{◌≡◌};
ghost use Rattle.icu_decimal_compact_value.specs.ExactForms.{compact_exponent_error_number};

use thiserror::Error;

/// An exact form was asked for with another exponent than the table has at its magnitude: `1.2c5` under `K` of exponent
/// 3.
///
/// It prints `Expected compact exponent 3 for 10^5, got 5`.
#[derive(Clone, Copy, Debug, Drop, PartialEq, Eq, Error)]
#[error("Expected compact exponent {expected} for 10^{magnitude}, got {actual}")]
pub struct CompactExponentError {
    /// The exponent asked for: 5 of `1.2c5`.
    pub actual: u8,
    /// The exponent of the entry for the magnitude, and 0 where there is none: 3 for the magnitude 5 under `K` of
    /// exponent 3.
    pub expected: u8,
    /// The magnitude of the significand and the exponent together: 5 of `1.2c5`.
    pub magnitude: i16,
}

impl CompactExponentError {
    /// The number of the error, 1.
    pub fn number(&self) -> u8
        ensures { result ≡ compact_exponent_error_number }
    {
        1
    }
}
