//! One field of an entry.

ghost use Rattle.std.specs.Prelude.{◌≡◌, true, IfOk, OnErr, Some, chars, is_some, length, option_map, string_bytes};
ghost use Rattle.std.specs.List.{list_all};
ghost use Rattle.serde_json.specs.View.{view};
ghost use Rattle.serde_json.specs.Find.{as_str};
ghost use Rattle.icu_locale_core.specs.Pieces.{pieces};
ghost use Rattle.locale_numbers_tables.specs.Entries.{field_at, has_count, is_text_at, text_or_empty};
ghost use Rattle.icu_locale_core.specs.TagAllocation.{tag_may_grow};
ghost use Rattle.locale_numbers_tables.specs.Allocation.{locale_may_grow};
ghost use Rattle.locale_numbers_tables.specs.TagReading.{data_locale_of, one_variant_data};
ghost use Rattle.locale_numbers_tables.specs.Fields.{is_plain, is_small_letter_or_digit, is_system_name, plain_text, plain_text_in, system_named, system_in, system_or_none_in, locale_in, size_in, digits_in, ten_characters};

use icu_locale_core::parser::OneVariantParts;
use icu_locale_core::{DataLocale, LanguageIdentifier, ParseError};
use serde_json::Value;
use std::alloc::{AllocError, Global};
use tinystr::TinyAsciiStr;

// Whether no tab and no line feed is in a text.
fn is_plain_text(text: &str) -> bool
    ensures { result ≡ list_all is_plain (chars text.now) }
{
    text.chars().all(|c| c != '\t' && c != '\n')
}

/// Whether a value is an array of `count` items.
pub fn has_count(entry: &Value, count: usize) -> bool
    ensures { result ≡ has_count count (view entry.now) }
{
    match entry.as_array() {
        Some(fields) => fields.len() == count,
        None => false,
    }
}

/// The text at a place of an entry.
pub fn text_at(entry: &Value, place: usize) -> Option<&str>
    ensures { option_map (λ text. text.now) result ≡ field_at as_str place (view entry.now) }
{
    entry.get(place)?.as_str()
}

/// Whether a text is at a place of an entry.
pub fn is_text_at(entry: &Value, place: usize) -> bool
    ensures { result ≡ is_text_at place (view entry.now) }
{
    text_at(entry, place).is_some()
}

/// A text, where no tab and no line feed is in it.
pub fn plain_alone(text: &str) -> Option<&str>
    ensures { option_map (λ text. text.now) result ≡ plain_text text.now }
{
    if is_plain_text(text) {
        Some(text)
    } else {
        None
    }
}

// The text at a place of an entry, where no tab and no line feed is in it.
fn plain_text(entry: &Value, place: usize) -> Option<&str>
    ensures { option_map (λ text. text.now) result ≡ field_at plain_text_in place (view entry.now) }
{
    let text = text_at(entry, place)?;
    plain_alone(text)
}

/// Whether a text without tab and line feed is at a place of an entry.
pub fn has_text(entry: &Value, place: usize) -> bool
    ensures { result ≡ is_some (field_at plain_text_in place (view entry.now)) }
{
    plain_text(entry, place).is_some()
}

/// The text at a place of an entry, as a `String`; the empty one where there is none.
pub fn symbol(alloc: Global, entry: &Value, place: usize) -> Result<String, AllocError>
    ensures { IfOk result (λ text. string_bytes text ≡ text_or_empty place (view entry.now)) }
{
    match plain_text(entry, place) {
        Some(text) => String::from_str(alloc, text),
        None => Ok(String::new(alloc)),
    }
}

/// The number at a place of an entry, from 0 to 255.
pub fn size(entry: &Value, place: usize) -> Option<u8>
    ensures { result ≡ field_at size_in place (view entry.now) }
{
    let number = entry.get(place)?.as_u64()?;
    if number < 256 {
        Some(number as u8)
    } else {
        None
    }
}

// The locale of the parts of a tag.
fn locale_of(parts: OneVariantParts) -> DataLocale
    ensures { result ≡ one_variant_data parts }
{
    let (language, script, region, variant) = parts;
    DataLocale {
        language,
        script,
        region,
        variant,
        subdivision: None,
    }
}

// The locale that a text is, whatever parts it has, or none.
fn read_any_locale(alloc: Global, text: &str) -> Result<Option<DataLocale>, AllocError>
    ensures value { IfOk result (λ locale. locale ≡ data_locale_of (pieces text.now)) }
    ensures room { OnErr result (tag_may_grow (pieces text.now) ≡ true) }
{
    match DataLocale::try_from_utf8(alloc, text.as_bytes()) {
        Ok(locale) => Ok(Some(locale)),
        Err(fault) => match fault {
            ParseError::Memory => Err(AllocError),
            _ => Ok(None),
        },
    }
}

// The locale that a text is, or none. Most have a language, a script, a region and a variant at most, and are read without
// a tag in memory.
fn read_locale(alloc: Global, text: &str) -> Result<Option<DataLocale>, AllocError>
    ensures value { IfOk result (λ locale. locale ≡ data_locale_of (pieces text.now)) }

    // A text that begins as no tag does, or has no variant and no extension, is never reported as out of memory.
    ensures room { OnErr result (tag_may_grow (pieces text.now) ≡ true) }
{
    match LanguageIdentifier::try_from_utf8_with_single_variant(text.as_bytes()) {
        Ok(parts) => Ok(Some(locale_of(parts))),
        Err(_) => read_any_locale(alloc, text),
    }
}

/// The locale at a place of an entry, or none.
pub fn locale(alloc: Global, entry: &Value, place: usize) -> Result<Option<DataLocale>, AllocError>
    ensures value { IfOk result (λ locale. locale ≡ field_at locale_in place (view entry.now)) }

    // Nor is a field that is no text.
    ensures room { OnErr result (locale_may_grow place (view entry.now) ≡ true) }
{
    match text_at(entry, place) {
        Some(text) => read_locale(alloc, text),
        None => Ok(None),
    }
}

fn is_system_name(text: &str) -> bool
    ensures { result ≡ is_system_name text.now }
{
    let bytes = text.as_bytes();
    bytes.len() >= 3 && bytes.len() <= 8 && is_small_alphanumeric(bytes)
}

fn is_small_alphanumeric(bytes: &[u8]) -> bool
    ensures { result ≡ list_all is_small_letter_or_digit bytes.now }
{
    bytes
        .iter()
        .all(|b| b.is_ascii_lowercase() || b.is_ascii_digit())
}

// The system that a text names.
fn read_system(text: &str) -> Option<TinyAsciiStr<8>>
    ensures { result ≡ system_named text.now }
{
    if !is_system_name(text) {
        return None;
    }
    match TinyAsciiStr::try_from_str(text) {
        Ok(system) => Some(system),
        Err(_) => None,
    }
}

/// The name of a system as a key.
pub fn system(entry: &Value, place: usize) -> Option<TinyAsciiStr<8>>
    ensures { result ≡ field_at system_in place (view entry.now) }
{
    let text = text_at(entry, place)?;
    read_system(text)
}

/// The system at a place of an entry, which may be empty.
pub fn system_or_none(entry: &Value, place: usize) -> Option<TinyAsciiStr<8>>
    ensures { result ≡ field_at system_or_none_in place (view entry.now) }
{
    let text = text_at(entry, place)?;
    if text.is_empty() {
        return Some(TinyAsciiStr::default());
    }
    read_system(text)
}

// The characters of a text.
fn characters(alloc: Global, text: &str) -> Result<Vec<char>, AllocError>
    ensures { IfOk result (λ list. list.items ≡ chars text.now) }
{
    text.chars().collect(alloc)
}

// The characters as an array, where they are ten.
fn ten_of(characters: &[char]) -> Option<[char; 10]>
    ensures { result ≡ ten_characters characters.now }
{
    if characters.len() != 10 {
        return None;
    }
    let mut digits = ['0'; 10];
    digits.copy_from_slice(characters);
    Some(digits)
}

// How many characters a text has.
fn count_of(text: &str) -> usize
    ensures { result ≡ length (chars text.now) }
{
    text.chars().count()
}

/// The ten characters at a place of an entry, or none.
pub fn digits(alloc: Global, entry: &Value, place: usize) -> Result<Option<[char; 10]>, AllocError>
    ensures value { IfOk result (λ digits. digits ≡ field_at digits_in place (view entry.now)) }

    // A field that is not there, or is no such text, is never reported as out of memory.
    ensures room { OnErr result (is_some (field_at digits_in place (view entry.now)) ≡ true) }
{
    let Some(text) = plain_text(entry, place) else {
        return Ok(None);
    };
    if count_of(text) != 10 {
        return Ok(None);
    }
    let list = characters(alloc, text)?;
    Ok(ten_of(list.as_slice()))
}
