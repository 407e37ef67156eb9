//! Rows of the words and numbers of errors.

use crate::call::Call;
use icu_locale_core::ParseError;
use icu_locale_core::preferences::extensions::unicode::errors::PreferencesParseError;
use rows::{Stop, put};
use std::fmt::Display;

// Writes the words or the number of an error.
fn put_error<E: Display>(out: &mut String, name: &str, error: &E, number: u8) -> Result<(), Stop> {
    match name {
        "to_string" => put(out, error),
        "number" => put(out, &number),
        _ => Err(Stop::Unknown),
    }
}

/// The answer of a call of an error by its type and its case; `PreferencesParseError` has one case.
pub fn answer(call: &Call<'_>, out: &mut String) -> Result<(), Stop> {
    match call.kind {
        "PreferencesParseError" => {
            let error = PreferencesParseError::InvalidKeywordValue;
            put_error(out, call.name, &error, error.number())
        }
        _ => parse_error(call, out),
    }
}

// The same, of a case of `ParseError`.
fn parse_error(call: &Call<'_>, out: &mut String) -> Result<(), Stop> {
    let error = match call.first {
        "InvalidLanguage" => ParseError::InvalidLanguage,
        "InvalidSubtag" => ParseError::InvalidSubtag,
        "InvalidExtension" => ParseError::InvalidExtension,
        "DuplicatedExtension" => ParseError::DuplicatedExtension,
        "Memory" => ParseError::Memory,
        _ => return Err(Stop::Unknown),
    };
    put_error(out, call.name, &error, error.number())
}
