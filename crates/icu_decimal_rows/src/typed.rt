//! Answers of the readers of what people type.

use crate::tables::LATIN;
use icu_decimal::error::ReadError;
use icu_decimal::input::Decimal;
use icu_decimal::options::GroupingStrategy;
use icu_decimal::provider::DecimalSymbols;
use icu_decimal::{DecimalFormatter, DecimalTables, LenientTables, read_lenient};
use rows::{Stop, put_last, refused};
use std::alloc::Global;

// What a text is read as by tables that are kept.
fn by_kept(
    alloc: Global,
    formatter: &DecimalFormatter<'_>,
    text: &str,
) -> Result<Decimal, ReadError> {
    let kept = match LenientTables::new(alloc, formatter.tables()) {
        Ok(kept) => kept,
        Err(error) => return Err(error),
    };
    let read = kept.read(alloc, text);
    drop(kept);
    read
}

// What a text is read as by these tables and by others.
fn by_both(
    alloc: Global,
    kept: &LenientTables<'_>,
    others: &DecimalTables<'_>,
    text: &str,
) -> Result<Decimal, ReadError> {
    let other = match LenientTables::new(alloc, others) {
        Ok(other) => other,
        Err(error) => return Err(error),
    };
    let read = kept.read_or(alloc, &other, text);
    drop(other);
    read
}

// The same, of a formatter's tables and of those with these symbols and Latin digits.
fn by_latin(
    alloc: Global,
    formatter: &DecimalFormatter<'_>,
    symbols: &DecimalSymbols,
    text: &str,
) -> Result<Decimal, ReadError> {
    let kept = match LenientTables::new(alloc, formatter.tables()) {
        Ok(kept) => kept,
        Err(error) => return Err(error),
    };
    let others = DecimalTables::new(symbols, &LATIN, GroupingStrategy::Auto);
    let read = by_both(alloc, &kept, &others, text);
    drop(kept);
    read
}

// The same, where the second symbols are those of English.
fn by_english(
    alloc: Global,
    formatter: &DecimalFormatter<'_>,
    text: &str,
) -> Result<Decimal, ReadError> {
    let symbols = DecimalSymbols::new_en_for_testing(alloc)?;
    let read = by_latin(alloc, formatter, &symbols, text);
    drop(symbols);
    read
}

// The decimal, or the words of the refusal.
fn put_read(read: Result<Decimal, ReadError>, out: &mut String) -> Result<(), Stop> {
    match read {
        Ok(number) => put_last(out, number),
        Err(ReadError::Memory) => Err(Stop::Memory),
        Err(refusal) => Err(refused(out, &refusal)),
    }
}

/// The answer of a call that reads what is typed, by its name.
pub fn answer(
    formatter: &DecimalFormatter<'_>,
    name: &str,
    text: &str,
    out: &mut String,
) -> Result<(), Stop> {
    let alloc = *out.allocator();
    match name {
        "read_lenient" => put_read(read_lenient(alloc, formatter, text), out),
        "read_kept" => put_read(by_kept(alloc, formatter, text), out),
        "read_or_english" => put_read(by_english(alloc, formatter, text), out),
        _ => Err(Stop::Unknown),
    }
}
