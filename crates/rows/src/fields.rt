//! Numbers and words in a field of a row.

use crate::stop::Stop;
use std::str::FromStr;

/// The number that a field spells: `12` of `u8` is 12, and `300` is not understood.
pub fn number_of<T: FromStr>(field: &str) -> Result<T, Stop>
where
    T::Err: Drop,
{
    match field.parse::<T>() {
        Ok(number) => Ok(number),
        Err(_) => Err(Stop::Unknown),
    }
}

/// A field up to its first space, and what is after it: `round -2` are `round` and `-2`, `one` are `one` and
/// nothing.
pub fn split_word(field: &str) -> (&str, &str) {
    match field.split_once(' ') {
        Some(parts) => parts,
        None => (field, ""),
    }
}
