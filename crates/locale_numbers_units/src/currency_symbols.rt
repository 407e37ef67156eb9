//! Symbols of currencies.

ghost use Rattle.std.specs.Prelude.{◌≡◌};
ghost use Rattle.serde_json.specs.View.{view};
ghost use Rattle.locale_numbers_units.specs.CurrencySymbols.{has_symbols_shape};

use crate::array::UnitArray;
use crate::fields::{code, ends};
use icu_decimal::provider::DataIdentifier;
use icu_dimension::provider::CurrencySymbol;
use locale_numbers_tables::BookError;
use locale_numbers_tables::fields::{has_count, has_text, is_text_at, locale, symbol};
use serde_json::Value;
use std::alloc::Global;

fn has_symbols_shape(entry: &Value) -> bool
    ensures { result ≡ has_symbols_shape (view entry.now) }
{
    has_count(entry, 4)
        && is_text_at(entry, 0)
        && is_text_at(entry, 1)
        && is_text_at(entry, 2)
        && ends(entry, 3).is_some()
}

/// The array of symbols of currencies: `["und","USD","US$",1]` says that dollars are `US$`, whose first end is a letter.
pub struct CurrencySymbols;

impl UnitArray for CurrencySymbols {
    ghost use Rattle.locale_numbers_units.specs.Allocation.{tagged_may_grow};
    ghost use Rattle.locale_numbers_units.specs.CurrencySymbols.{has_symbols_shape, symbols_fault, symbols_key, symbols_said};

    type Key = DataIdentifier;

    type Said = CurrencySymbol;

    ghost key_in = { symbols_key };

    ghost said_in = { symbols_said };

    ghost fault_in = { symbols_fault };

    // A fault is reported as out of memory only after a locale whose reading may allocate.
    ghost may_grow = { tagged_may_grow has_symbols_shape symbols_fault };

    fn read_key(alloc: Global, entry: &Value) -> Result<DataIdentifier, BookError> {
        if !has_symbols_shape(entry) {
            return Err(BookError::Shape);
        }
        let Ok(found) = locale(alloc, entry, 0) else {
            return Err(BookError::Memory);
        };
        let Some(locale) = found else {
            return Err(BookError::Tag);
        };
        if !has_text(entry, 2) {
            return Err(BookError::Text);
        }
        match code(entry, 1) {
            Some(code) => Ok(DataIdentifier::for_marker_attributes_and_locale(code, locale)),
            None => Err(BookError::Code),
        }
    }

    fn read(alloc: Global, entry: &Value) -> Result<CurrencySymbol, BookError> {
        let Some(ends) = ends(entry, 3) else {
            return Err(BookError::Shape);
        };
        match symbol(alloc, entry, 2) {
            Ok(text) => Ok(CurrencySymbol { text, ends }),
            Err(_) => Err(BookError::Memory),
        }
    }
}
