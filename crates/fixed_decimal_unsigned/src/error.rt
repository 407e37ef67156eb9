//! Why a text is not read as a number, and why a number is not put after another.

ghost use Rattle.std.specs.Prelude.{◌≡◌};
ghost use Rattle.fixed_decimal_unsigned.specs.declared.error.ParseError.TheVariants.{Memory};
ghost use Rattle.fixed_decimal_unsigned.specs.ErrorNumbers.{parse_error_number, concatenate_error_number};

use std::alloc::AllocError;
use thiserror::Error;

/// Why a text was not read as a number: `Syntax` of `5.`.
#[derive(Clone, Copy, Debug, Drop, PartialEq, Eq, Error)]
pub enum ParseError {
    /// The text spells a number whose digits or exponent pass magnitudes -32768 to 32767, as `1e32768`.
    #[error("Magnitude or number of digits exceeded")]
    Limit,
    /// The text spells no number, as `5.`.
    #[error("Failed to parse the input string")]
    Syntax,
    /// Out of memory: the seventeen digits of `12345678901234567` allocate, sixteen do not.
    #[error("Memory for the digits was refused")]
    Memory,
}

impl ParseError {
    /// The number of the error: 1 of `Limit`, 2 of `Syntax`, 3 of `Memory`.
    pub fn number(&self) -> u8
        ensures { result ≡ parse_error_number self.now }
    {
        match self {
            ParseError::Limit => 1,
            ParseError::Syntax => 2,
            ParseError::Memory => 3,
        }
    }
}

impl From<AllocError> for ParseError {
    ghost from_gives = { λ _ e. e ≡ Memory };

    fn from(_refused: AllocError) -> ParseError {
        ParseError::Memory
    }
}

/// Why a number was not put after another: `Overlap` of `0.3` after `12.3`. The case holds what was passed: `T` is
/// one number, or both.
#[derive(Debug, Drop, PartialEq, Eq, Error)]
pub enum ConcatenateError<T> {
    /// The last digit of the first number that is not zero is not above the first such digit of the second: `0.3`
    /// after `12.3`, or `12` after `1`.
    #[error("The digits of the two numbers overlap")]
    Overlap(T),
    /// Out of memory: the seventeen digits of `4567` after `12345678901230000` allocate.
    #[error("Memory for the digits was refused")]
    Memory(T),
}

impl<T> ConcatenateError<T> {
    /// The number of the error: 1 of `Overlap`, 2 of `Memory`.
    pub fn number(&self) -> u8
        ensures { result ≡ concatenate_error_number self.now }
    {
        match self {
            ConcatenateError::Overlap(_) => 1,
            ConcatenateError::Memory(_) => 2,
        }
    }
}
