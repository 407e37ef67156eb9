//! What refusals answer.

use icu_locale_core::ParseError;
use icu_locale_core::preferences::extensions::unicode::errors::PreferencesParseError;
use rows::{Stop, put_last_written, refused_debug};
use writeable::Writeable;

/// The value that was read; the name of a refusal is the answer: `InvalidSubtag`.
pub fn read<T>(read: Result<T, ParseError>, out: &mut String) -> Result<T, Stop> {
    match read {
        Ok(value) => Ok(value),
        Err(ParseError::Memory) => Err(Stop::Memory),
        Err(refusal) => Err(refused_debug(out, &refusal)),
    }
}

/// The same, as a value that is there.
pub fn read_some<T>(value: Result<T, ParseError>, out: &mut String) -> Result<Option<T>, Stop> {
    match read(value, out) {
        Ok(value) => Ok(Some(value)),
        Err(stop) => Err(stop),
    }
}

/// Writes the value that was read, or the name of the refusal.
pub fn put_read<T: Writeable + Drop>(
    value: Result<T, ParseError>,
    out: &mut String,
) -> Result<(), Stop> {
    match read(value, out) {
        Ok(value) => put_last_written(out, value),
        Err(stop) => Err(stop),
    }
}

/// What a value states; the name of a refusal is the answer: `InvalidKeywordValue`.
pub fn stated<T>(stated: Result<T, PreferencesParseError>, out: &mut String) -> Result<T, Stop> {
    match stated {
        Ok(stated) => Ok(stated),
        Err(refusal) => Err(refused_debug(out, &refusal)),
    }
}
