//! One field of an entry of units.

ghost use Rattle.std.specs.Prelude.{◌≡◌};
ghost use Rattle.std.specs.List.{list_all};
ghost use Rattle.std.specs.Char.{is_ascii_uppercase};
ghost use Rattle.serde_json.specs.View.{view};
ghost use Rattle.locale_numbers_tables.specs.Entries.{field_at};
ghost use Rattle.locale_numbers_units.specs.Fields.{code_in, code_named, ends_in, ends_numbered, increment_in, increment_numbered, is_code, system_or_code_at};

use icu_dimension::{FractionIncrement, LetterEnds};
use locale_numbers_tables::fields::{size, system_or_none, text_at};
use serde_json::Value;
use tinystr::TinyAsciiStr;

fn are_capitals(bytes: &[u8]) -> bool
    ensures { result ≡ list_all is_ascii_uppercase bytes.now }
{
    bytes.iter().all(|b| b.is_ascii_uppercase())
}

fn is_code(text: &str) -> bool
    ensures { result ≡ is_code text.now }
{
    let bytes = text.as_bytes();
    bytes.len() == 3 && are_capitals(bytes)
}

/// The code of a currency that a text is.
pub fn read_code(text: &str) -> Option<TinyAsciiStr<8>>
    ensures { result ≡ code_named text.now }
{
    if !is_code(text) {
        return None;
    }
    match TinyAsciiStr::try_from_str(text) {
        Ok(code) => Some(code),
        Err(_) => None,
    }
}

/// The code of a currency at a place of an entry.
pub fn code(entry: &Value, place: usize) -> Option<TinyAsciiStr<8>>
    ensures { result ≡ field_at code_in place (view entry.now) }
{
    let text = text_at(entry, place)?;
    read_code(text)
}

/// The system or the code at a place of an entry, which may be empty.
pub fn system_or_code(entry: &Value, place: usize) -> Option<TinyAsciiStr<8>>
    ensures { result ≡ system_or_code_at place (view entry.now) }
{
    match code(entry, place) {
        Some(code) => Some(code),
        None => system_or_none(entry, place),
    }
}

// Which ends are letters, by the sum of 1 for the first and 2 for the last.
fn ends_numbered(number: u8) -> Option<LetterEnds>
    ensures { result ≡ ends_numbered number }
{
    if number > 3 {
        return None;
    }
    Some(LetterEnds {
        first: number == 1 || number == 3,
        last: number >= 2,
    })
}

/// Which ends of a symbol are letters, at a place of an entry.
pub fn ends(entry: &Value, place: usize) -> Option<LetterEnds>
    ensures { result ≡ field_at ends_in place (view entry.now) }
{
    let number = size(entry, place)?;
    ends_numbered(number)
}

// The increment with this number in its name.
fn increment_numbered(number: u8) -> Option<FractionIncrement>
    ensures { result ≡ increment_numbered number }
{
    match number {
        1 => Some(FractionIncrement::MultiplesOf1),
        2 => Some(FractionIncrement::MultiplesOf2),
        5 => Some(FractionIncrement::MultiplesOf5),
        10 => Some(FractionIncrement::MultiplesOf10),
        20 => Some(FractionIncrement::MultiplesOf20),
        25 => Some(FractionIncrement::MultiplesOf25),
        50 => Some(FractionIncrement::MultiplesOf50),
        _ => None,
    }
}

/// The increment at a place of an entry.
pub fn increment(entry: &Value, place: usize) -> Option<FractionIncrement>
    ensures { result ≡ field_at increment_in place (view entry.now) }
{
    let number = size(entry, place)?;
    increment_numbered(number)
}
