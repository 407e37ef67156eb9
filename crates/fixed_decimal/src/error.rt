//! The error of a number that does not fit the type that it was to become.

ghost use Rattle.std.specs.Prelude.{◌≡◌};
ghost use Rattle.fixed_decimal.specs.RefusalNumbers.{limit_error_number};

use thiserror::Error;

/// A number does not fit the type that it was to become: it shows a digit after the point, as `1.0` does,
/// which becomes no `FixedInteger`.
#[derive(Clone, Copy, Debug, Drop, PartialEq, Eq, Error)]
#[error("Magnitude or number of digits exceeded")]
pub struct LimitError;

impl LimitError {
    /// The number of the error: 1 of `LimitError`. It does not allocate.
    pub fn number(&self) -> u8
        ensures { result ≡ limit_error_number }
    {
        1
    }
}
