//! Why units are no small text, and why bytes or a JSON value are no form of one.

ghost use Rattle.std.specs.Prelude.{◌≡◌};
ghost use Rattle.tinystr.specs.FaultNumbers.{parse_error_number, ule_error_number};

use thiserror::Error;

/// Why units are no text of a `TinyAsciiStr`.
#[derive(Clone, Copy, Debug, Drop, PartialEq, Eq, Error)]
pub enum ParseError {
    /// The units are more than the capacity: `hello` at 4 is `TooLong { max: 4, len: 5 }`.
    #[error("at most {max} bytes fit, and there are {len}")]
    TooLong {
        /// The capacity.
        max: usize,
        /// How many units there are.
        len: usize,
    },
    /// A NUL is before another unit, as in `[0, 97]`, or, for readers other than `try_from_raw`, at the end.
    #[error("a NUL stands in the text")]
    ContainsNull,
    /// A unit is above 127, and nothing before it is wrong: `[97, 200]` at 4.
    #[error("a unit is not ASCII")]
    NonAscii,
}

impl ParseError {
    /// The number of the error: 1 of `TooLong`, 2 of `ContainsNull`, 3 of `NonAscii`. It does not allocate.
    pub fn number(&self) -> u8
        ensures { result ≡ parse_error_number self.now }
    {
        match self {
            ParseError::TooLong { .. } => 1,
            ParseError::ContainsNull => 2,
            ParseError::NonAscii => 3,
        }
    }
}

/// Why bytes or a JSON value are no form of a value: of the byte `[97]` at 2 it is `Length(1)`.
#[derive(Clone, Copy, Debug, Drop, PartialEq, Eq, Error)]
pub enum UleError {
    /// A list of this many bytes is no form, whatever they are; of a JSON value that is no text it is `Length(0)`.
    #[error("{0} bytes are no form")]
    Length(usize),
    /// The count is right, and the bytes are no form, as `[0, 97]` at 2; or the text in a JSON value is refused.
    #[error("the bytes are no small text")]
    Parse,
}

impl UleError {
    /// The number of the error: 1 of `Length`, 2 of `Parse`. It does not allocate.
    pub fn number(&self) -> u8
        ensures { result ≡ ule_error_number self.now }
    {
        match self {
            UleError::Length(_) => 1,
            UleError::Parse => 2,
        }
    }
}
