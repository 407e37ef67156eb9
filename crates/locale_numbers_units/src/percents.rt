//! Percents.

ghost use Rattle.std.specs.Prelude.{◌≡◌, IfOk, option_map, string_bytes};
ghost use Rattle.serde_json.specs.View.{view};
ghost use Rattle.locale_numbers_tables.specs.Entries.{text_or_empty};
ghost use Rattle.locale_numbers_units.specs.Percents.{has_percents_shape, has_percents_systems, has_percents_texts, permille_said};

use crate::array::UnitArray;
use crate::own_symbols::{has_own_shape, has_own_system, has_own_texts, own_symbols};
use crate::patterns::{has_pattern_shape, is_plain_pattern, pattern_at};
use icu_decimal::provider::DataIdentifier;
use icu_dimension::provider::PercentPattern;
use locale_numbers_tables::BookError;
use locale_numbers_tables::fields::{
    has_count, has_text, is_text_at, locale, symbol, system_or_none,
};
use serde_json::Value;
use std::alloc::{AllocError, Global};

fn has_percents_shape(entry: &Value) -> bool
    ensures { result ≡ has_percents_shape (view entry.now) }
{
    (has_count(entry, 5) || has_count(entry, 6) && is_text_at(entry, 5))
        && is_text_at(entry, 0)
        && is_text_at(entry, 1)
        && is_text_at(entry, 2)
        && has_own_shape(entry, 3)
        && has_pattern_shape(entry, 4)
}

fn has_percents_texts(entry: &Value) -> bool
    ensures { result ≡ has_percents_texts (view entry.now) }
{
    has_text(entry, 2)
        && (has_count(entry, 5) || has_text(entry, 5))
        && has_own_texts(entry, 3)
        && is_plain_pattern(entry, 4)
}

// The percent sign and the permille sign, where there is one.
fn signs(alloc: Global, entry: &Value) -> Result<(String, Option<String>), AllocError>
    ensures sign { IfOk result (λ signs. string_bytes signs.0 ≡ text_or_empty 2 (view entry.now)) }
    ensures permille { IfOk result (λ signs. option_map string_bytes signs.1 ≡ permille_said (view entry.now)) }
{
    let sign = symbol(alloc, entry, 2)?;
    if !is_text_at(entry, 5) {
        return Ok((sign, None));
    }
    match symbol(alloc, entry, 5) {
        Ok(permille) => Ok((sign, Some(permille))),
        Err(refused) => Err(refused),
    }
}

/// The array of percents: `["tr","","%",null,["¤",""],"‰"]` says that in Turkish the percent sign is before the number, as
/// is the permille sign.
pub struct Percents;

impl UnitArray for Percents {
    ghost use Rattle.locale_numbers_tables.specs.Entries.{entry_key};
    ghost use Rattle.locale_numbers_units.specs.Allocation.{tagged_may_grow};
    ghost use Rattle.locale_numbers_units.specs.Percents.{has_percents_shape, percents_fault, percents_said};

    type Key = DataIdentifier;

    type Said = PercentPattern;

    ghost key_in = { entry_key };

    ghost said_in = { percents_said };

    ghost fault_in = { percents_fault };

    // A fault of a lower number than a duplicate is reported as out of memory only after a locale whose reading may
    // allocate.
    ghost may_grow = { tagged_may_grow has_percents_shape percents_fault };

    fn read_key(alloc: Global, entry: &Value) -> Result<DataIdentifier, BookError> {
        if !has_percents_shape(entry) {
            return Err(BookError::Shape);
        }
        let Ok(found) = locale(alloc, entry, 0) else {
            return Err(BookError::Memory);
        };
        let Some(locale) = found else {
            return Err(BookError::Tag);
        };
        let Some(system) = system_or_none(entry, 1) else {
            return Err(BookError::System);
        };
        if !has_own_system(entry, 3) {
            return Err(BookError::System);
        }
        if !has_percents_texts(entry) {
            return Err(BookError::Text);
        }
        Ok(DataIdentifier::for_marker_attributes_and_locale(system, locale))
    }

    #[tactic(auto, using(crate::proofs::PatternLemmas::percents_no_shape, crate::proofs::PatternLemmas::percents_unit, crate::proofs::PatternLemmas::percents_sound))]
    fn read(alloc: Global, entry: &Value) -> Result<PercentPattern, BookError> {
        let Ok(found) = own_symbols(alloc, entry, 3) else {
            return Err(BookError::Memory);
        };
        let Some(symbols) = found else {
            return Err(BookError::Shape);
        };
        let Ok(found) = pattern_at(alloc, entry, 4) else {
            return Err(BookError::Memory);
        };
        let Some(pattern) = found else {
            return Err(BookError::Unit);
        };
        match signs(alloc, entry) {
            Ok((sign, permille)) => Ok(PercentPattern {
                sign,
                permille,
                symbols,
                pattern,
            }),
            Err(_) => Err(BookError::Memory),
        }
    }
}
