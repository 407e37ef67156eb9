//! Why there is no table.

ghost use Rattle.std.specs.Prelude.{◌≡◌};
ghost use Rattle.icu_decimal_symbols.specs.DataErrors.{number_of};

use thiserror::Error;

/// Why a provider gives no table, or why a table is not one: `IdentifierNotFound` of `xx` with the sample book.
///
/// After ICU4X's `DataError`, whose kinds these are as far as a formatter meets them.
#[derive(Clone, Copy, Debug, Drop, PartialEq, Eq, Error)]
pub enum DataError {
    /// No table is under the identifier: with the sample book, symbols of `xx`.
    #[error("identifier not found")]
    IdentifierNotFound,
    /// No identifier was asked for: the result of `load_with_fallback` for an empty list.
    #[error("invalid request")]
    InvalidRequest,
    /// The exponents of compact patterns fall: 3 and then 2.
    #[error("compact exponents decrease")]
    Decreasing,
    /// The exponent of a compact pattern is more than 15 below its type: 4 at type 20.
    #[error("too many zeros")]
    TooManyZeros,
    /// The exponent of a compact pattern is above its type: 4 at type 3.
    #[error("exponent above its type")]
    AboveType,
    /// Out of memory, as in `PluralRules::new` for the condition `i = 1 and v = 0`.
    #[error("out of memory")]
    Memory,
    /// Any other cause: one that the provider knows, or plural rules with `i is 1`, which is no condition.
    #[error("custom")]
    Custom,
}

impl DataError {
    /// The number of the error, 1 to 7 in the order above: 1 of `IdentifierNotFound`. It does not allocate.
    pub fn number(&self) -> u8
        ensures { result ≡ number_of self.now }
    {
        match *self {
            DataError::IdentifierNotFound => 1,
            DataError::InvalidRequest => 2,
            DataError::Decreasing => 3,
            DataError::TooManyZeros => 4,
            DataError::AboveType => 5,
            DataError::Memory => 6,
            DataError::Custom => 7,
        }
    }
}
