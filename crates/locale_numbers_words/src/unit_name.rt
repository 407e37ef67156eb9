//! Names of units.

ghost use Rattle.std.specs.Prelude.{◌≡◌, option_map, true};
ghost use Rattle.std.specs.List.{list_all};
ghost use Rattle.std.specs.Option.{option_map_or};
ghost use Rattle.locale_numbers_words.specs.Cuts.{lacks};
ghost use Rattle.locale_numbers_words.specs.UnitNames.{is_compound, is_name_byte, is_unit_name, per, per_parts, unit_name_in};

use crate::cuts::{cut_at, lacks};
use tinystr::TinyAsciiStr;

// What is between the two units of a name.
const PER: &str = "-per-";

// The two units of a name: `kilometer` and `hour` of `kilometer-per-hour`.
pub(crate) fn per_parts(name: &str) -> Option<(&str, &str)>
    ensures { option_map (λ parts. (parts.0.now, parts.1.now)) result ≡ per_parts name.now }
{
    cut_at(name, PER)
}

// Whether a name is of two units.
pub(crate) fn is_compound(name: &str) -> bool
    ensures { result ≡ is_compound name.now }
{
    per_parts(name).is_some()
}

// Whether `-per-` is at most once in a name.
fn is_cut_once(name: &str) -> bool
    ensures { result ≡ option_map_or (λ parts. lacks per parts.1) (per_parts name.now) true }
{
    match per_parts(name) {
        Some((_unit, other)) => lacks(other, PER),
        None => true,
    }
}

fn are_name_bytes(bytes: &[u8]) -> bool
    ensures { result ≡ list_all is_name_byte bytes.now }
{
    bytes.iter().all(|b| b.is_ascii_lowercase() || b.is_ascii_digit() || *b == b'-')
}

/// Whether a text is the name of a unit, as `kilometer-per-hour`: 1 to 32 small letters, digits and hyphens, with `-per-` at
/// most once. `Kilometer` is none. It does not allocate.
///
/// Source: UTS 35, part 2 (general), unit identifiers.
pub fn is_unit_name(name: &str) -> bool
    ensures { result ≡ is_unit_name name.now }
{
    let bytes = name.as_bytes();
    bytes.len() >= 1 && bytes.len() <= 32 && are_name_bytes(bytes) && is_cut_once(name)
}

// The name of a unit that a text is.
pub(crate) fn unit_name(text: &str) -> Option<TinyAsciiStr<32>>
    ensures { result ≡ unit_name_in text.now }
{
    if !is_unit_name(text) {
        return None;
    }
    match TinyAsciiStr::try_from_str(text) {
        Ok(name) => Some(name),
        Err(_) => None,
    }
}
