//! Rows of keywords with a type of their own.

use crate::call::Call;
use crate::part::hash_of;
use crate::refusals::{read, stated};
use crate::writing::{put_last_optional, put_optional};
use icu_locale_core::extensions::unicode::{Key, SubdivisionId, Value};
use icu_locale_core::preferences::PreferenceKey;
use icu_locale_core::preferences::extensions::unicode::keywords::{
    CollationCaseFirst, CollationNumericOrdering, CurrencyFormatStyle, CurrencyType,
    EmojiPresentationStyle, FirstDay, LineBreakStyle, LineBreakWordHandling, MeasurementSystem,
    NumberingSystem, RegionOverride, RegionalSubdivision, WordKeyword,
};
use icu_locale_core::subtags::Subtag;
use rows::{Stop, put, put_debug, put_text, put_written};
use std::fmt::Debug;
use std::hash::Hash;

/// The answer of a call of a keyword with a type.
pub fn keyword(call: &Call<'_>, out: &mut String) -> Result<(), Stop> {
    match call.name {
        "try_from" => tried(call, out),
        "try_from_subtag" if call.kind == "NumberingSystem" => {
            let subtag = read(Subtag::try_from_str(call.first), out)?;
            let system = stated(NumberingSystem::try_from(subtag), out)?;
            put_text(out, system.as_str())
        }
        "iso_code" if call.kind == "CurrencyType" => {
            let currency = preference::<CurrencyType>(call, call.first, out)?;
            put_text(out, currency.iso_code().as_str())
        }
        "as_str" => {
            let word = word_of(call, out)?;
            put_text(out, word)
        }
        _ => by_type(call, out),
    }
}

// The answer of a call that many of them have, by the type.
fn by_type(call: &Call<'_>, out: &mut String) -> Result<(), Stop> {
    match call.kind {
        "NumberingSystem" => answer::<NumberingSystem>(call, out),
        "RegionalSubdivision" => answer::<RegionalSubdivision>(call, out),
        "RegionOverride" => answer::<RegionOverride>(call, out),
        "CurrencyType" => answer::<CurrencyType>(call, out),
        "FirstDay" => of_words::<FirstDay>(call, out),
        "MeasurementSystem" => of_words::<MeasurementSystem>(call, out),
        "CurrencyFormatStyle" => of_words::<CurrencyFormatStyle>(call, out),
        "EmojiPresentationStyle" => of_words::<EmojiPresentationStyle>(call, out),
        "LineBreakStyle" => of_words::<LineBreakStyle>(call, out),
        "LineBreakWordHandling" => of_words::<LineBreakWordHandling>(call, out),
        "CollationCaseFirst" => of_words::<CollationCaseFirst>(call, out),
        "CollationNumericOrdering" => of_words::<CollationNumericOrdering>(call, out),
        _ => Err(Stop::Unknown),
    }
}

// The preference that the value of a text states.
fn preference<P: PreferenceKey + Copy>(
    call: &Call<'_>,
    text: &str,
    out: &mut String,
) -> Result<P, Stop> {
    let value = read(Value::try_from_str(call.alloc, text), out)?;
    let preference = P::try_from_value(&value);
    drop(value);
    stated(preference, out)
}

// The answer of a call that every keyword has.
fn answer<P: PreferenceKey + Copy + Debug + PartialEq + Hash>(
    call: &Call<'_>,
    out: &mut String,
) -> Result<(), Stop> {
    match call.name {
        "unicode_extension_key" => put_optional(out, P::unicode_extension_key().as_ref()),
        "try_from_key_value" => {
            let key = read(Key::try_from_str(call.first), out)?;
            let value = read(Value::try_from_str(call.alloc, call.second), out)?;
            let preference = P::try_from_key_value(&key, &value);
            drop(value);
            let preference = stated(preference, out)?;
            put_debug(out, &preference)
        }
        _ => answer_of(preference::<P>(call, call.first, out)?, call, out),
    }
}

// The answer of a call of a preference.
fn answer_of<P: PreferenceKey + Copy + Debug + PartialEq + Hash>(
    one: P,
    call: &Call<'_>,
    out: &mut String,
) -> Result<(), Stop> {
    match call.name {
        "try_from_value" => put_debug(out, &one),
        "unicode_extension_value" => put_last_optional(
            out,
            one.unicode_extension_value(call.alloc)?,
        ),
        "==" => {
            let other = preference::<P>(call, call.second, out)?;
            put(out, &(one == other))
        }
        "hash" => {
            let other = preference::<P>(call, call.second, out)?;
            put(out, &(hash_of(&one) == hash_of(&other)))
        }
        _ => Err(Stop::Unknown),
    }
}

// The answer of a call of a keyword whose values are words.
fn of_words<W: WordKeyword + Debug + PartialEq + Hash + 'static>(
    call: &Call<'_>,
    out: &mut String,
) -> Result<(), Stop> {
    match call.name {
        "word" => {
            let case = preference::<W>(call, call.first, out)?;
            put_text(out, case.word())
        }
        "cases" => put_debug(out, &W::cases()),
        "key" => put_text(out, W::key()),
        _ => answer::<W>(call, out),
    }
}

// The answer of `try_from`, of the value of a text.
fn tried(call: &Call<'_>, out: &mut String) -> Result<(), Stop> {
    let value = read(Value::try_from_str(call.alloc, call.first), out)?;
    let done = tried_of(&value, call.kind, out);
    drop(value);
    done
}

// Writes what a value states: the subtag, the region and the suffix, or the case.
fn tried_of(value: &Value, kind: &str, out: &mut String) -> Result<(), Stop> {
    match kind {
        "NumberingSystem" => {
            let system = stated(NumberingSystem::try_from(value), out)?;
            put_text(out, system.as_str())
        }
        "CurrencyType" => {
            let currency = stated(CurrencyType::try_from(value), out)?;
            put_text(out, currency.as_str())
        }
        "RegionalSubdivision" => {
            let subdivision = stated(RegionalSubdivision::try_from(value), out)?;
            put_subdivision(out, *subdivision)
        }
        "RegionOverride" => {
            let region = stated(RegionOverride::try_from(value), out)?;
            put_subdivision(out, *region)
        }
        "FirstDay" => {
            let day = stated(FirstDay::try_from(value), out)?;
            put_debug(out, &day)
        }
        "LineBreakStyle" => {
            let style = stated(LineBreakStyle::try_from(value), out)?;
            put_debug(out, &style)
        }
        "LineBreakWordHandling" => {
            let handling = stated(LineBreakWordHandling::try_from(value), out)?;
            put_debug(out, &handling)
        }
        _ => Err(Stop::Unknown),
    }
}

fn put_subdivision(out: &mut String, id: SubdivisionId) -> Result<(), Stop> {
    put_written(out, &id.region)?;
    put_text(out, " ")?;
    put_written(out, &id.suffix)
}

// The word of the case that a text states, by `as_str` of the type.
fn word_of(call: &Call<'_>, out: &mut String) -> Result<&'static str, Stop> {
    let text = call.first;
    match call.kind {
        "FirstDay" => Ok(preference::<FirstDay>(call, text, out)?.as_str()),
        "MeasurementSystem" => Ok(preference::<MeasurementSystem>(call, text, out)?.as_str()),
        "CurrencyFormatStyle" => Ok(preference::<CurrencyFormatStyle>(call, text, out)?.as_str()),
        "EmojiPresentationStyle" => {
            Ok(preference::<EmojiPresentationStyle>(call, text, out)?.as_str())
        }
        "LineBreakStyle" => Ok(preference::<LineBreakStyle>(call, text, out)?.as_str()),
        "LineBreakWordHandling" => {
            Ok(preference::<LineBreakWordHandling>(call, text, out)?.as_str())
        }
        "CollationCaseFirst" => Ok(preference::<CollationCaseFirst>(call, text, out)?.as_str()),
        "CollationNumericOrdering" => {
            Ok(preference::<CollationNumericOrdering>(call, text, out)?.as_str())
        }
        _ => Err(Stop::Unknown),
    }
}
