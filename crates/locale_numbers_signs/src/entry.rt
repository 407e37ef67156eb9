//! Entries of signs.

ghost use Rattle.std.specs.Prelude.{◌≡◌, IfOk, is_some, string_bytes};
ghost use Rattle.serde_json.specs.View.{view};
ghost use Rattle.locale_numbers_tables.specs.Entries.{field_at, is_text_at, text_or_empty};
ghost use Rattle.locale_numbers_tables.specs.Fields.{plain_text_in};
ghost use Rattle.locale_numbers_signs.specs.SignsEntries.{are_texts, bound_said, has_sign_texts, has_signs_shape, nested, range_said, signs_said};

use crate::number_signs::{BoundSigns, NumberSigns, RangeSigns};
use icu_decimal::provider::DataIdentifier;
use locale_numbers_tables::fields::{
    has_count, has_text, is_text_at, locale, symbol, system_or_none,
};
use locale_numbers_tables::{BookError, Entry};
use serde_json::Value;
use std::alloc::{AllocError, Global};

// Whether an array of two or three texts is at a place of an entry.
fn has_texts_at(entry: &Value, place: usize, count: usize) -> bool
    ensures { result ≡ are_texts count (nested place (view entry.now)) }
{
    match entry.get(place) {
        Some(texts) => {
            has_count(texts, count)
                && is_text_at(texts, 0)
                && is_text_at(texts, 1)
                && (count == 2 || is_text_at(texts, 2))
        }
        None => false,
    }
}

// Whether a text without tab and line feed is at a place of the array at a place of an entry.
fn has_text_in(entry: &Value, place: usize, inner: usize) -> bool
    ensures { result ≡ is_some (field_at plain_text_in inner (nested place (view entry.now))) }
{
    match entry.get(place) {
        Some(texts) => has_text(texts, inner),
        None => false,
    }
}

fn has_signs_shape(entry: &Value) -> bool
    ensures { result ≡ has_signs_shape (view entry.now) }
{
    has_count(entry, 9)
        && is_text_at(entry, 0)
        && is_text_at(entry, 1)
        && is_text_at(entry, 2)
        && is_text_at(entry, 3)
        && is_text_at(entry, 4)
        && is_text_at(entry, 5)
        && has_texts_at(entry, 6, 3)
        && has_texts_at(entry, 7, 2)
        && has_texts_at(entry, 8, 2)
}

fn has_sign_texts(entry: &Value) -> bool
    ensures { result ≡ has_sign_texts (view entry.now) }
{
    has_text(entry, 2)
        && has_text(entry, 3)
        && has_text(entry, 4)
        && has_text(entry, 5)
        && has_text_in(entry, 6, 0)
        && has_text_in(entry, 6, 1)
        && has_text_in(entry, 6, 2)
        && has_text_in(entry, 7, 0)
        && has_text_in(entry, 7, 1)
        && has_text_in(entry, 8, 0)
        && has_text_in(entry, 8, 1)
}

// The text at a place of the array at a place of an entry; the empty one where there is none.
fn symbol_in(alloc: Global, entry: &Value, place: usize, inner: usize) -> Result<String, AllocError>
    ensures { IfOk result (λ text. string_bytes text ≡ text_or_empty inner (nested place (view entry.now))) }
{
    match entry.get(place) {
        Some(texts) => symbol(alloc, texts, inner),
        None => Ok(String::new(alloc)),
    }
}

// The three texts around a range.
fn range_signs(alloc: Global, entry: &Value) -> Result<RangeSigns, AllocError>
    ensures { IfOk result (λ texts. texts ≡ range_said (nested 6 (view entry.now))) }
{
    let before = symbol_in(alloc, entry, 6, 0)?;
    let between = symbol_in(alloc, entry, 6, 1)?;
    let after = symbol_in(alloc, entry, 6, 2)?;
    Ok(RangeSigns {
        before,
        between,
        after,
    })
}

// The two texts at a place around a number.
fn bound_signs(alloc: Global, entry: &Value, place: usize) -> Result<BoundSigns, AllocError>
    ensures { IfOk result (λ texts. texts ≡ bound_said (nested place (view entry.now))) }
{
    let before = symbol_in(alloc, entry, place, 0)?;
    let after = symbol_in(alloc, entry, place, 1)?;
    Ok(BoundSigns { before, after })
}

// The signs of an entry.
fn number_signs(alloc: Global, entry: &Value) -> Result<NumberSigns, AllocError>
    ensures { IfOk result (λ signs. signs ≡ signs_said (view entry.now)) }
{
    let exponent = symbol(alloc, entry, 2)?;
    let multiplication = symbol(alloc, entry, 3)?;
    let permille = symbol(alloc, entry, 4)?;
    let about = symbol(alloc, entry, 5)?;
    let range = range_signs(alloc, entry)?;
    let at_least = bound_signs(alloc, entry, 7)?;
    let at_most = bound_signs(alloc, entry, 8)?;
    Ok(NumberSigns {
        exponent,
        multiplication,
        permille,
        about,
        range,
        at_least,
        at_most,
    })
}

impl Entry for NumberSigns {
    ghost use Rattle.locale_numbers_tables.specs.Entries.{entry_key};
    ghost use Rattle.locale_numbers_signs.specs.SignsEntries.{signs_entry, signs_fault, signs_may_grow};

    type Key = DataIdentifier;

    ghost meaning = { signs_entry };

    ghost key_in = { entry_key };

    ghost fault_in = { signs_fault };

    // A fault is reported as out of memory only after a locale whose reading may allocate.
    ghost may_grow = { signs_may_grow };

    #[tactic(auto, using(crate::proofs::SignsLemmas::signs_sound))]
    fn read(alloc: Global, entry: &Value) -> Result<(DataIdentifier, NumberSigns), BookError> {
        if !has_signs_shape(entry) {
            return Err(BookError::Shape);
        }
        let Ok(found) = locale(alloc, entry, 0) else {
            return Err(BookError::Memory);
        };
        let Some(locale) = found else {
            return Err(BookError::Tag);
        };
        let Some(system) = system_or_none(entry, 1) else {
            return Err(BookError::System);
        };
        if !has_sign_texts(entry) {
            return Err(BookError::Text);
        }
        let key = DataIdentifier::for_marker_attributes_and_locale(system, locale);
        match number_signs(alloc, entry) {
            Ok(signs) => Ok((key, signs)),
            Err(_) => Err(BookError::Memory),
        }
    }
}
