//! Digits of currencies.

ghost use Rattle.std.specs.Prelude.{◌≡◌, is_some};
ghost use Rattle.serde_json.specs.View.{view};
ghost use Rattle.locale_numbers_units.specs.CurrencyDigits.{digits_said, fraction_at, has_digits_shape};

use crate::array::UnitArray;
use crate::fields::{code, increment};
use icu_dimension::{Fraction, FractionInfo};
use locale_numbers_tables::BookError;
use locale_numbers_tables::fields::{has_count, is_text_at, size};
use serde_json::Value;
use std::alloc::Global;
use tinystr::TinyAsciiStr;

// The digits at a place of an entry, with the increment at another.
fn fraction(entry: &Value, digits_place: usize, increment_place: usize) -> Option<Fraction>
    ensures { result ≡ fraction_at digits_place increment_place (view entry.now) }
{
    let digits = size(entry, digits_place)?;
    let increment = increment(entry, increment_place)?;
    Some(Fraction { digits, increment })
}

// The digits of an entry, and those of cash.
fn fraction_info(entry: &Value) -> Option<FractionInfo>
    ensures { result ≡ digits_said (view entry.now) }
{
    let standard = fraction(entry, 1, 2)?;
    let cash = fraction(entry, 3, 4)?;
    Some(FractionInfo { standard, cash })
}

fn has_digits_shape(entry: &Value) -> bool
    ensures { result ≡ has_digits_shape (view entry.now) }
{
    has_count(entry, 5) && is_text_at(entry, 0) && fraction_info(entry).is_some()
}

/// The array of digits of currencies: `["CHF",2,1,2,5]` says that francs have two digits, and that in cash the last of
/// them is a multiple of 5.
pub struct CurrencyDigits;

impl UnitArray for CurrencyDigits {
    ghost use Rattle.locale_numbers_units.specs.Allocation.{passes};
    ghost use Rattle.locale_numbers_units.specs.CurrencyDigits.{digits_fault, digits_key, digits_said};

    type Key = TinyAsciiStr<8>;

    type Said = FractionInfo;

    ghost key_in = { digits_key };

    ghost said_in = { digits_said };

    ghost fault_in = { digits_fault };

    // No fault of an entry of digits is ever reported as out of memory.
    ghost may_grow = { passes digits_fault };

    fn read_key(_alloc: Global, entry: &Value) -> Result<TinyAsciiStr<8>, BookError> {
        if !has_digits_shape(entry) {
            return Err(BookError::Shape);
        }
        match code(entry, 0) {
            Some(code) => Ok(code),
            None => Err(BookError::Code),
        }
    }

    fn read(_alloc: Global, entry: &Value) -> Result<FractionInfo, BookError> {
        match fraction_info(entry) {
            Some(digits) => Ok(digits),
            None => Err(BookError::Shape),
        }
    }
}
