//! The symbols that an entry of units has of its own.

ghost use Rattle.std.specs.Prelude.{◌≡◌, ◌+◌, IfOk, is_some, string_bytes};
ghost use Rattle.serde_json.specs.View.{view};
ghost use Rattle.icu_decimal.specs.Symbols.{SymbolStrings};
ghost use Rattle.locale_numbers_tables.specs.Entries.{field_at, grouping_sizes_of, has_count, has_texts, is_text_at, symbol_texts, text_or_empty};
ghost use Rattle.locale_numbers_tables.specs.Faults.{has_symbols_shape};
ghost use Rattle.locale_numbers_tables.specs.Fields.{plain_text_in, size_in, system_in};
ghost use Rattle.locale_numbers_units.specs.Fields.{has_at};
ghost use Rattle.locale_numbers_units.specs.OwnSymbols.{as_entry, has_own_shape, has_own_system, has_own_texts, own_in, symbols_in, system_or_empty};

use icu_decimal::provider::{
    DecimalSymbolStrsBuilder, DecimalSymbols, DecimalSymbolsStrs, GroupingSizes,
};
use locale_numbers_tables::fields;
use serde_json::Value;
use std::alloc::{AllocError, Global};
use tinystr::TinyAsciiStr;

// ---- fields, which are two places further on in an entry of symbols

fn has_ten(own: &Value) -> bool
    ensures { result ≡ has_count 12 (as_entry (view own.now)) }
{
    fields::has_count(own, 10)
}

fn is_text(own: &Value, place: usize) -> bool
    ensures { result ≡ is_text_at (2 + place) (as_entry (view own.now)) }
{
    fields::is_text_at(own, place)
}

fn is_plain(own: &Value, place: usize) -> bool
    ensures { result ≡ is_some (field_at plain_text_in (2 + place) (as_entry (view own.now))) }
{
    fields::has_text(own, place)
}

fn size(own: &Value, place: usize) -> Option<u8>
    ensures { result ≡ field_at size_in (2 + place) (as_entry (view own.now)) }
{
    fields::size(own, place)
}

fn system(own: &Value) -> Option<TinyAsciiStr<8>>
    ensures { result ≡ field_at system_in 2 (as_entry (view own.now)) }
{
    fields::system(own, 0)
}

fn text(alloc: Global, own: &Value, place: usize) -> Result<String, AllocError>
    ensures { IfOk result (λ text. string_bytes text ≡ text_or_empty (2 + place) (as_entry (view own.now))) }
{
    fields::symbol(alloc, own, place)
}

// ---- symbols

fn grouping_sizes(own: &Value) -> Option<GroupingSizes>
    ensures { result ≡ grouping_sizes_of (as_entry (view own.now)) }
{
    let primary = size(own, 7)?;
    let secondary = size(own, 8)?;
    let min_grouping = size(own, 9)?;
    Some(GroupingSizes {
        primary,
        secondary,
        min_grouping,
    })
}

fn has_symbols_shape(own: &Value) -> bool
    ensures { result ≡ has_symbols_shape (as_entry (view own.now)) }
{
    has_ten(own)
        && is_text(own, 0)
        && is_text(own, 1)
        && is_text(own, 2)
        && is_text(own, 3)
        && is_text(own, 4)
        && is_text(own, 5)
        && is_text(own, 6)
        && grouping_sizes(own).is_some()
}

fn has_texts(own: &Value) -> bool
    ensures { result ≡ has_texts (as_entry (view own.now)) }
{
    is_plain(own, 1)
        && is_plain(own, 2)
        && is_plain(own, 3)
        && is_plain(own, 4)
        && is_plain(own, 5)
        && is_plain(own, 6)
}

// The system that goes with the symbols, or the empty text.
fn system_or_empty(own: &Value) -> TinyAsciiStr<8>
    ensures { result ≡ system_or_empty (as_entry (view own.now)) }
{
    match system(own) {
        Some(system) => system,
        None => TinyAsciiStr::default(),
    }
}

// The texts of symbols.
fn symbol_texts(
    alloc: Global,
    own: &Value,
    numsys: TinyAsciiStr<8>,
) -> Result<DecimalSymbolsStrs, AllocError>
    ensures { IfOk result (λ texts. texts ≡ symbol_texts numsys (as_entry (view own.now))) }
{
    let minus_sign_prefix = text(alloc, own, 1)?;
    let minus_sign_suffix = text(alloc, own, 2)?;
    let plus_sign_prefix = text(alloc, own, 3)?;
    let plus_sign_suffix = text(alloc, own, 4)?;
    let decimal_separator = text(alloc, own, 5)?;
    let grouping_separator = text(alloc, own, 6)?;
    let strings = DecimalSymbolStrsBuilder {
        minus_sign_prefix,
        minus_sign_suffix,
        plus_sign_prefix,
        plus_sign_suffix,
        decimal_separator,
        grouping_separator,
        numsys,
    };
    Ok(strings.build())
}

// The symbols of fields.
fn symbols(alloc: Global, own: &Value) -> Result<Option<DecimalSymbols>, AllocError>
    ensures { IfOk result (λ found. found ≡ symbols_in (as_entry (view own.now))) }
{
    let Some(grouping_sizes) = grouping_sizes(own) else {
        return Ok(None);
    };
    let strings = symbol_texts(alloc, own, system_or_empty(own))?;
    Ok(Some(DecimalSymbols {
        strings,
        grouping_sizes,
    }))
}

// The symbols of fields or of null.
fn symbols_or_null(alloc: Global, own: &Value) -> Result<Option<Option<DecimalSymbols>>, AllocError>
    ensures { IfOk result (λ found. found ≡ own_in (view own.now)) }
{
    if own.is_null() {
        return Ok(Some(None));
    }
    match symbols(alloc, own)? {
        Some(symbols) => Ok(Some(Some(symbols))),
        None => Ok(None),
    }
}

// ---- at a place of an entry

fn is_shaped(own: &Value) -> bool
    ensures { result ≡ has_own_shape (view own.now) }
{
    own.is_null() || has_symbols_shape(own)
}

fn has_system(own: &Value) -> bool
    ensures { result ≡ has_own_system (view own.now) }
{
    own.is_null() || system(own).is_some()
}

fn has_plain_texts(own: &Value) -> bool
    ensures { result ≡ has_own_texts (view own.now) }
{
    own.is_null() || has_texts(own)
}

/// Whether symbols or null are at a place of an entry.
pub fn has_own_shape(entry: &Value, place: usize) -> bool
    ensures { result ≡ has_at has_own_shape place (view entry.now) }
{
    match entry.get(place) {
        Some(own) => is_shaped(own),
        None => false,
    }
}

/// Whether the symbols at a place of an entry name a system, where it has symbols there.
pub fn has_own_system(entry: &Value, place: usize) -> bool
    ensures { result ≡ has_at has_own_system place (view entry.now) }
{
    match entry.get(place) {
        Some(own) => has_system(own),
        None => false,
    }
}

/// Whether no tab and no line feed is in the symbols at a place of an entry.
pub fn has_own_texts(entry: &Value, place: usize) -> bool
    ensures { result ≡ has_at has_own_texts place (view entry.now) }
{
    match entry.get(place) {
        Some(own) => has_plain_texts(own),
        None => false,
    }
}

/// The symbols at a place of an entry, which may be null, or none.
pub fn own_symbols(
    alloc: Global,
    entry: &Value,
    place: usize,
) -> Result<Option<Option<DecimalSymbols>>, AllocError>
    ensures { IfOk result (λ found. found ≡ field_at own_in place (view entry.now)) }
{
    match entry.get(place) {
        Some(own) => symbols_or_null(alloc, own),
        None => Ok(None),
    }
}
