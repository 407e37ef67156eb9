//! What refusals answer.

use fixed_decimal::ParseError;
use icu_decimal::error::DataError;
use rows::{Stop, refused};

/// The number that was read; a text that is not one is not understood.
pub fn parsed<T>(read: Result<T, ParseError>) -> Result<T, Stop> {
    match read {
        Ok(number) => Ok(number),
        Err(ParseError::Memory) => Err(Stop::Memory),
        Err(_) => Err(Stop::Unknown),
    }
}

/// The tag that was read; a text that is not one is not understood.
pub fn read<T>(tag: Result<T, icu_locale_core::ParseError>) -> Result<T, Stop> {
    match tag {
        Ok(tag) => Ok(tag),
        Err(icu_locale_core::ParseError::Memory) => Err(Stop::Memory),
        Err(_) => Err(Stop::Unknown),
    }
}

/// The table or the formatter that was made; the words of a refusal are the answer: `custom`.
pub fn made<T>(made: Result<T, DataError>, out: &mut String) -> Result<T, Stop> {
    match made {
        Ok(it) => Ok(it),
        Err(DataError::Memory) => Err(Stop::Memory),
        Err(refusal) => Err(refused(out, &refusal)),
    }
}
