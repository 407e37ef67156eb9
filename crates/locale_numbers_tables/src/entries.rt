//! Entries of symbols and of digits.

ghost use Rattle.std.specs.Prelude.{◌≡◌, IfOk, Some, None};
ghost use Rattle.serde_json.specs.View.{view};
ghost use Rattle.icu_decimal.specs.Symbols.{SymbolStrings};
ghost use Rattle.locale_numbers_tables.specs.Entries.{grouping_sizes_of, symbol_texts, has_count, has_texts};
ghost use Rattle.locale_numbers_tables.specs.Faults.{has_symbols_shape, has_digits_shape};

use crate::BookError;
use crate::entry::Entry;
use crate::fields::{
    digits, has_count, has_text, is_text_at, locale, size, symbol, system, system_or_none,
};
use icu_decimal::provider::{
    DataIdentifier, DecimalSymbolStrsBuilder, DecimalSymbols, DecimalSymbolsStrs, GroupingSizes,
};
use serde_json::Value;
use std::alloc::{AllocError, Global};
use tinystr::TinyAsciiStr;

fn grouping_sizes(entry: &Value) -> Option<GroupingSizes>
    ensures { result ≡ grouping_sizes_of (view entry.now) }
{
    let primary = size(entry, 9)?;
    let secondary = size(entry, 10)?;
    let min_grouping = size(entry, 11)?;
    Some(GroupingSizes {
        primary,
        secondary,
        min_grouping,
    })
}

fn has_symbols_shape(entry: &Value) -> bool
    ensures { result ≡ has_symbols_shape (view entry.now) }
{
    has_count(entry, 12)
        && is_text_at(entry, 0)
        && is_text_at(entry, 1)
        && is_text_at(entry, 2)
        && is_text_at(entry, 3)
        && is_text_at(entry, 4)
        && is_text_at(entry, 5)
        && is_text_at(entry, 6)
        && is_text_at(entry, 7)
        && is_text_at(entry, 8)
        && grouping_sizes(entry).is_some()
}

fn has_texts(entry: &Value) -> bool
    ensures { result ≡ has_texts (view entry.now) }
{
    has_text(entry, 3)
        && has_text(entry, 4)
        && has_text(entry, 5)
        && has_text(entry, 6)
        && has_text(entry, 7)
        && has_text(entry, 8)
}

// The texts of symbols.
fn symbol_texts(
    alloc: Global,
    entry: &Value,
    numsys: TinyAsciiStr<8>,
) -> Result<DecimalSymbolsStrs, AllocError>
    ensures { IfOk result (λ texts. texts ≡ symbol_texts numsys (view entry.now)) }
{
    let minus_sign_prefix = symbol(alloc, entry, 3)?;
    let minus_sign_suffix = symbol(alloc, entry, 4)?;
    let plus_sign_prefix = symbol(alloc, entry, 5)?;
    let plus_sign_suffix = symbol(alloc, entry, 6)?;
    let decimal_separator = symbol(alloc, entry, 7)?;
    let grouping_separator = symbol(alloc, entry, 8)?;
    let strings = DecimalSymbolStrsBuilder {
        minus_sign_prefix,
        minus_sign_suffix,
        plus_sign_prefix,
        plus_sign_suffix,
        decimal_separator,
        grouping_separator,
        numsys,
    };
    Ok(strings.build())
}

fn has_digits_shape(entry: &Value) -> bool
    ensures { result ≡ has_digits_shape (view entry.now) }
{
    has_count(entry, 2) && is_text_at(entry, 0) && is_text_at(entry, 1)
}

impl Entry for DecimalSymbols {
    ghost use Rattle.locale_numbers_tables.specs.Entries.{entry_key, symbols_entry};
    ghost use Rattle.locale_numbers_tables.specs.Faults.{symbols_fault};
    ghost use Rattle.locale_numbers_tables.specs.Allocation.{symbols_may_grow};

    type Key = DataIdentifier;

    ghost meaning = { symbols_entry };

    ghost key_in = { entry_key };

    ghost fault_in = { symbols_fault };

    // A fault is reported as out of memory only after a locale whose reading may allocate.
    ghost may_grow = { symbols_may_grow };

    #[tactic(auto, using(crate::proofs::FaultLemmas::symbols_sound))]
    fn read(alloc: Global, entry: &Value) -> Result<(DataIdentifier, DecimalSymbols), BookError> {
        if !has_symbols_shape(entry) {
            return Err(BookError::Shape);
        }
        let Ok(found) = locale(alloc, entry, 0) else {
            return Err(BookError::Memory);
        };
        let Some(locale) = found else {
            return Err(BookError::Tag);
        };
        let Some(asked) = system_or_none(entry, 1) else {
            return Err(BookError::System);
        };
        let Some(numsys) = system(entry, 2) else {
            return Err(BookError::System);
        };
        if !has_texts(entry) {
            return Err(BookError::Text);
        }
        let Some(grouping_sizes) = grouping_sizes(entry) else {
            return Err(BookError::Shape);
        };
        let Ok(strings) = symbol_texts(alloc, entry, numsys) else {
            return Err(BookError::Memory);
        };
        let key = DataIdentifier::for_marker_attributes_and_locale(asked, locale);
        Ok((
            key,
            DecimalSymbols {
                strings,
                grouping_sizes,
            },
        ))
    }
}

impl Entry for [char; 10] {
    ghost use Rattle.locale_numbers_tables.specs.Entries.{digits_entry, digits_key};
    ghost use Rattle.locale_numbers_tables.specs.Faults.{digits_fault};
    ghost use Rattle.locale_numbers_tables.specs.Allocation.{digits_may_grow};

    type Key = TinyAsciiStr<8>;

    ghost meaning = { digits_entry };

    ghost key_in = { digits_key };

    ghost fault_in = { digits_fault };

    // No fault of an entry of digits is ever reported as out of memory.
    ghost may_grow = { digits_may_grow };

    #[tactic(auto, using(crate::proofs::FaultLemmas::digits_sound))]
    fn read(alloc: Global, entry: &Value) -> Result<(TinyAsciiStr<8>, [char; 10]), BookError> {
        if !has_digits_shape(entry) {
            return Err(BookError::Shape);
        }
        let Some(system) = system(entry, 0) else {
            return Err(BookError::System);
        };
        let Ok(found) = digits(alloc, entry, 1) else {
            return Err(BookError::Memory);
        };
        match found {
            Some(digits) => Ok((system, digits)),
            None => Err(BookError::Digits),
        }
    }
}
