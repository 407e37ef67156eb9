//! The patterns of an entry of units.

ghost use Rattle.std.specs.Prelude.{◌≡◌, ◌&&◌, IfOk, is_some};
ghost use Rattle.serde_json.specs.View.{view};
ghost use Rattle.locale_numbers_tables.specs.Entries.{field_at};
ghost use Rattle.locale_numbers_units.specs.Fields.{has_at};
ghost use Rattle.locale_numbers_units.specs.Patterns.{affixes_at, affixes_of, has_pattern_shape, is_plain_at, is_plain_pattern, or_null, pattern_in, pattern_or_null_in, six_texts_in, two_texts_in};

use icu_dimension::{UnitAffixes, UnitPattern, UnitPatternError};
use locale_numbers_tables::fields::{has_count, has_text, is_text_at, text_at};
use serde_json::Value;
use std::alloc::{AllocError, Global};

// The affixes of two texts in which the place of the unit is once.
#[tactic(auto, using(crate::proofs::PatternLemmas::cut_again, crate::proofs::PatternLemmas::nowhere, crate::proofs::PatternLemmas::often))]
fn affixes_of(alloc: Global, before: &str, after: &str) -> Result<Option<UnitAffixes>, AllocError>
    ensures { IfOk result (λ found. found ≡ affixes_of before.now after.now) }
{
    match UnitAffixes::try_new(alloc, before, after) {
        Ok(affixes) => Ok(Some(affixes)),
        Err(fault) => match fault {
            UnitPatternError::NoPlace => Ok(None),
            UnitPatternError::PlaceTwice => Ok(None),
            UnitPatternError::Memory => Err(AllocError),
        },
    }
}

// The affixes of the texts at two places of a pattern.
fn affixes_at(
    alloc: Global,
    pattern: &Value,
    first: usize,
    second: usize,
) -> Result<Option<UnitAffixes>, AllocError>
    ensures { IfOk result (λ found. found ≡ affixes_at first second (view pattern.now)) }
{
    let Some(before) = text_at(pattern, first) else {
        return Ok(None);
    };
    let Some(after) = text_at(pattern, second) else {
        return Ok(None);
    };
    affixes_of(alloc, before, after)
}

// The pattern of two texts.
fn two_texts(alloc: Global, pattern: &Value) -> Result<Option<UnitPattern>, AllocError>
    ensures { IfOk result (λ found. found ≡ two_texts_in (view pattern.now)) }
{
    let Some(unsigned) = affixes_at(alloc, pattern, 0, 1)? else {
        return Ok(None);
    };
    Ok(Some(UnitPattern::new(unsigned, None, None)))
}

// The pattern of six texts.
fn six_texts(alloc: Global, pattern: &Value) -> Result<Option<UnitPattern>, AllocError>
    ensures { IfOk result (λ found. found ≡ six_texts_in (view pattern.now)) }
{
    let Some(unsigned) = affixes_at(alloc, pattern, 0, 1)? else {
        return Ok(None);
    };
    let Some(minus) = affixes_at(alloc, pattern, 2, 3)? else {
        return Ok(None);
    };
    let Some(plus) = affixes_at(alloc, pattern, 4, 5)? else {
        return Ok(None);
    };
    Ok(Some(UnitPattern::new(unsigned, Some(minus), Some(plus))))
}

// The pattern that a value is.
fn pattern(alloc: Global, value: &Value) -> Result<Option<UnitPattern>, AllocError>
    ensures { IfOk result (λ found. found ≡ pattern_in (view value.now)) }
{
    if has_count(value, 6) {
        six_texts(alloc, value)
    } else {
        two_texts(alloc, value)
    }
}

// The pattern that a value is, or none of null.
fn pattern_or_null(alloc: Global, value: &Value) -> Result<Option<Option<UnitPattern>>, AllocError>
    ensures { IfOk result (λ found. found ≡ pattern_or_null_in (view value.now)) }
{
    if value.is_null() {
        return Ok(Some(None));
    }
    match pattern(alloc, value)? {
        Some(pattern) => Ok(Some(Some(pattern))),
        None => Ok(None),
    }
}

/// The pattern at a place of an entry: at place 1 of `["other",["¤","K"],null]` that of `¤` before and `K` after it.
///
/// A pattern is two texts in which the place of the unit is once, or three such pairs: without a sign, with a minus and
/// with a plus. `Ok(None)`: there is none. It allocates. `AllocError`: out of memory.
pub fn pattern_at(
    alloc: Global,
    entry: &Value,
    place: usize,
) -> Result<Option<UnitPattern>, AllocError>
    ensures { IfOk result (λ found. found ≡ field_at pattern_in place (view entry.now)) }
{
    match entry.get(place) {
        Some(value) => pattern(alloc, value),
        None => Ok(None),
    }
}

/// The pattern at a place of an entry, which may be null: at place 2 of `["other",["¤","K"],null]` `Some(None)`.
///
/// `Ok(None)`: there is neither null nor a pattern, as `pattern_at` says. It allocates only for a pattern.
/// `AllocError`: out of memory.
pub fn pattern_or_null_at(
    alloc: Global,
    entry: &Value,
    place: usize,
) -> Result<Option<Option<UnitPattern>>, AllocError>
    ensures { IfOk result (λ found. found ≡ field_at pattern_or_null_in place (view entry.now)) }
{
    match entry.get(place) {
        Some(value) => pattern_or_null(alloc, value),
        None => Ok(None),
    }
}

// ---- faults

fn is_shaped(pattern: &Value) -> bool
    ensures { result ≡ has_pattern_shape (view pattern.now) }
{
    (has_count(pattern, 2)
        || has_count(pattern, 6)
            && is_text_at(pattern, 2)
            && is_text_at(pattern, 3)
            && is_text_at(pattern, 4)
            && is_text_at(pattern, 5))
        && is_text_at(pattern, 0)
        && is_text_at(pattern, 1)
}

fn is_plain(pattern: &Value) -> bool
    ensures { result ≡ is_plain_pattern (view pattern.now) }
{
    (has_count(pattern, 2)
        || has_text(pattern, 2)
            && has_text(pattern, 3)
            && has_text(pattern, 4)
            && has_text(pattern, 5))
        && has_text(pattern, 0)
        && has_text(pattern, 1)
}

fn is_shaped_or_null(pattern: &Value) -> bool
    ensures { result ≡ or_null has_pattern_shape (view pattern.now) }
{
    pattern.is_null() || is_shaped(pattern)
}

fn is_plain_or_null(pattern: &Value) -> bool
    ensures { result ≡ or_null is_plain_pattern (view pattern.now) }
{
    pattern.is_null() || is_plain(pattern)
}

/// Whether a pattern is at a place of an entry.
pub fn has_pattern_shape(entry: &Value, place: usize) -> bool
    ensures { result ≡ has_at has_pattern_shape place (view entry.now) }
{
    match entry.get(place) {
        Some(pattern) => is_shaped(pattern),
        None => false,
    }
}

/// Whether a pattern or null is at a place of an entry.
pub fn has_pattern_or_null_shape(entry: &Value, place: usize) -> bool
    ensures { result ≡ has_at (or_null has_pattern_shape) place (view entry.now) }
{
    match entry.get(place) {
        Some(pattern) => is_shaped_or_null(pattern),
        None => false,
    }
}

/// Whether no tab and no line feed is in the pattern at a place of an entry.
pub fn is_plain_pattern(entry: &Value, place: usize) -> bool
    ensures { result ≡ has_at is_plain_pattern place (view entry.now) }
{
    match entry.get(place) {
        Some(pattern) => is_plain(pattern),
        None => false,
    }
}

/// Whether null, or a pattern without a tab and a line feed, is at a place of an entry.
pub fn is_plain_pattern_or_null(entry: &Value, place: usize) -> bool
    ensures { result ≡ has_at (or_null is_plain_pattern) place (view entry.now) }
{
    match entry.get(place) {
        Some(pattern) => is_plain_or_null(pattern),
        None => false,
    }
}
