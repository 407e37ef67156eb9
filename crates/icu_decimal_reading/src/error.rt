//! Why a text is not read.

ghost use Rattle.std.specs.Prelude.{◌≡◌};
ghost use Rattle.icu_decimal_reading.specs.declared.error.ReadError.TheVariants.{Memory};
ghost use Rattle.icu_decimal_reading.specs.ReadErrors.{read_error_number};

use std::alloc::AllocError;
use thiserror::Error;

/// Why a text is not read as a decimal: `NotWritten` of `98,7654` in English.
#[derive(Clone, Copy, Debug, Drop, PartialEq, Eq, Error)]
pub enum ReadError {
    /// The symbols do not tell numbers apart, as with `-` for a minus sign and for a plus sign: no text is read with
    /// them.
    #[error("unreadable symbols")]
    Unreadable,
    /// The formatter writes no decimal so: `98,7654` in English.
    #[error("not written so")]
    NotWritten,
    /// Out of memory: the seventeen digits of `12,345,678,901,234,567` allocate, sixteen do not.
    #[error("out of memory")]
    Memory,
}

impl ReadError {
    /// The number of the error: 1 of `Unreadable`, 2 of `NotWritten`, 3 of `Memory`. Does not allocate.
    pub fn number(&self) -> u8
        ensures { result ≡ read_error_number self.now }
    {
        match *self {
            ReadError::Unreadable => 1,
            ReadError::NotWritten => 2,
            ReadError::Memory => 3,
        }
    }
}

impl From<AllocError> for ReadError {
    ghost from_gives = { λ _ e. e ≡ Memory };

    fn from(_refused: AllocError) -> ReadError {
        ReadError::Memory
    }
}
