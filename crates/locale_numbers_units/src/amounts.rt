//! Amounts of money, in general and in accounting.

ghost use Rattle.std.specs.Prelude.{◌≡◌, ◌&&◌, false, true, Bool, IfErr, IfOk, IsErrOf, None, OnOk, Some, is_some, option_map};
ghost use Rattle.serde_json.specs.View.{view};
ghost use Rattle.locale_numbers_units.specs.Allocation.{tagged_may_grow};
ghost use Rattle.locale_numbers_tables.specs.Entries.{field_at};
ghost use Rattle.locale_numbers_units.specs.Amounts.{amounts_fault, amounts_said, has_amounts_shape, has_amounts_texts, patterns_of};
ghost use Rattle.locale_numbers_units.specs.Fields.{key_with, system_or_code_at};
ghost use Rattle.locale_numbers_tables.specs.Telling.{IsTold};
ghost use Rattle.locale_numbers_tables.specs.declared.BookError.{BookError};

use crate::array::UnitArray;
use crate::fields::system_or_code;
use crate::own_symbols::{has_own_shape, has_own_system, has_own_texts, own_symbols};
use crate::patterns::{
    has_pattern_or_null_shape, has_pattern_shape, is_plain_pattern, is_plain_pattern_or_null,
    pattern_at, pattern_or_null_at,
};
use icu_decimal::provider::DataIdentifier;
use icu_dimension::UnitPatterns;
use icu_dimension::provider::AmountPatterns;
use locale_numbers_tables::BookError;
use locale_numbers_tables::fields::{has_count, is_text_at, locale, system_or_none};
use serde_json::Value;
use std::alloc::{AllocError, Global};
use tinystr::TinyAsciiStr;

fn has_amounts_shape(entry: &Value) -> bool
    ensures { result ≡ has_amounts_shape (view entry.now) }
{
    has_count(entry, 5)
        && is_text_at(entry, 0)
        && is_text_at(entry, 1)
        && has_own_shape(entry, 2)
        && has_pattern_shape(entry, 3)
        && has_pattern_or_null_shape(entry, 4)
}

fn has_amounts_texts(entry: &Value) -> bool
    ensures { result ≡ has_amounts_texts (view entry.now) }
{
    has_own_texts(entry, 2) && is_plain_pattern(entry, 3) && is_plain_pattern_or_null(entry, 4)
}

// The patterns of an entry, or none.
fn patterns(alloc: Global, entry: &Value) -> Result<Option<UnitPatterns>, AllocError>
    ensures { IfOk result (λ found. found ≡ patterns_of (view entry.now)) }
{
    let Some(standard) = pattern_at(alloc, entry, 3)? else {
        return Ok(None);
    };
    let Some(beside) = pattern_or_null_at(alloc, entry, 4)? else {
        return Ok(None);
    };
    Ok(Some(UnitPatterns::new(standard, beside)))
}

// The key of an entry whose second field is read so.
fn read_key_with(
    alloc: Global,
    entry: &Value,
    attribute: Option<TinyAsciiStr<8>>,
) -> Result<DataIdentifier, BookError>
    ensures key { IfOk result (λ key. key_with attribute (view entry.now) ≡ Some key) }
    ensures sound { OnOk result (amounts_fault attribute false (view entry.now) ≡ Some BookError.Duplicate) }
    ensures fault { IfErr result (λ fault. (is_new : Bool) → IsTold (amounts_fault attribute is_new (view entry.now)) fault) }
    ensures grows { OnOk result (tagged_may_grow has_amounts_shape (amounts_fault attribute) (view entry.now) ≡ true) }
    ensures room { IsErrOf result BookError.Memory
        → tagged_may_grow has_amounts_shape (amounts_fault attribute) (view entry.now) ≡ true }
{
    if !has_amounts_shape(entry) {
        return Err(BookError::Shape);
    }
    let Ok(found) = locale(alloc, entry, 0) else {
        return Err(BookError::Memory);
    };
    let Some(locale) = found else {
        return Err(BookError::Tag);
    };
    let Some(attribute) = attribute else {
        return Err(BookError::System);
    };
    if !has_own_system(entry, 2) {
        return Err(BookError::System);
    }
    if !has_amounts_texts(entry) {
        return Err(BookError::Text);
    }
    Ok(DataIdentifier::for_marker_attributes_and_locale(attribute, locale))
}

// What an entry says whose second field is read so.
#[tactic(auto, using(crate::proofs::PatternLemmas::amounts_no_shape, crate::proofs::PatternLemmas::amounts_unit, crate::proofs::PatternLemmas::amounts_sound))]
fn read_with(
    alloc: Global,
    entry: &Value,
    attribute: Option<TinyAsciiStr<8>>,
) -> Result<AmountPatterns, BookError>
    requires { amounts_fault attribute false (view entry.now) ≡ Some BookError.Duplicate }
    ensures value { IfOk result (λ said. amounts_said (view entry.now) ≡ Some said) }
    ensures sound { OnOk result (amounts_fault attribute true (view entry.now) ≡ None) }
    ensures fault { IfErr result (λ fault. IsTold (amounts_fault attribute true (view entry.now)) fault) }
{
    let Ok(found) = own_symbols(alloc, entry, 2) else {
        return Err(BookError::Memory);
    };
    let Some(symbols) = found else {
        return Err(BookError::Shape);
    };
    let Ok(found) = patterns(alloc, entry) else {
        return Err(BookError::Memory);
    };
    let Some(patterns) = found else {
        return Err(BookError::Unit);
    };
    Ok(AmountPatterns { symbols, patterns })
}

/// The array of currencies: `["en","",null,["¤",""],["¤ ",""]]` says that in English the unit is before the number, with
/// a space where a letter is next to it: `€5`, `CHF 5`.
pub struct Currencies;

impl UnitArray for Currencies {
    ghost use Rattle.locale_numbers_units.specs.Allocation.{tagged_may_grow};
    ghost use Rattle.locale_numbers_units.specs.Amounts.{amounts_said, currencies_fault, currencies_key, has_amounts_shape};

    type Key = DataIdentifier;

    type Said = AmountPatterns;

    ghost key_in = { currencies_key };

    ghost said_in = { amounts_said };

    ghost fault_in = { currencies_fault };

    // A fault of a lower number than a duplicate is reported as out of memory only after a locale whose reading may
    // allocate.
    ghost may_grow = { tagged_may_grow has_amounts_shape currencies_fault };

    fn read_key(alloc: Global, entry: &Value) -> Result<DataIdentifier, BookError> {
        read_key_with(alloc, entry, system_or_code(entry, 1))
    }

    fn read(alloc: Global, entry: &Value) -> Result<AmountPatterns, BookError> {
        read_with(alloc, entry, system_or_code(entry, 1))
    }
}

/// The array of accounts: `["en","",null,["¤","","(¤",")","+¤",""],null]` says that in English a negative amount is in
/// parentheses in accounting: `($5.00)`.
pub struct Accounts;

impl UnitArray for Accounts {
    ghost use Rattle.locale_numbers_units.specs.Allocation.{tagged_may_grow};
    ghost use Rattle.locale_numbers_units.specs.Amounts.{accounts_fault, accounts_key, amounts_said, has_amounts_shape};

    type Key = DataIdentifier;

    type Said = AmountPatterns;

    ghost key_in = { accounts_key };

    ghost said_in = { amounts_said };

    ghost fault_in = { accounts_fault };

    // As of currencies.
    ghost may_grow = { tagged_may_grow has_amounts_shape accounts_fault };

    fn read_key(alloc: Global, entry: &Value) -> Result<DataIdentifier, BookError> {
        read_key_with(alloc, entry, system_or_none(entry, 1))
    }

    fn read(alloc: Global, entry: &Value) -> Result<AmountPatterns, BookError> {
        read_with(alloc, entry, system_or_none(entry, 1))
    }
}
