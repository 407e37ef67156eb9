//! Why entries and patterns are no table of compact amounts.

use thiserror::Error;

/// Why entries and patterns are no table of compact amounts: `Types` of the types 6 and 3.
#[derive(Clone, Copy, Debug, Drop, PartialEq, Eq, Error)]
pub enum ShortCurrencyCompactError {
    /// There are not as many patterns as entries: two entries and one pattern.
    #[error("not as many patterns as entries")]
    Lengths,
    /// The types do not rise strictly: 6 and then 3.
    #[error("types do not rise")]
    Types,
    /// An exponent falls, is above its type, or is more than 15 below it: the exponent 4 at type 3.
    #[error("exponents do not fit the types")]
    Exponents,
}
