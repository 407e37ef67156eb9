//! Writing the text of a number without its parts: many digits by one call of the sink.

ghost use Rattle.std.specs.Prelude.{◌≡◌, ℕ, ◌+◌, ◌-◌, ◌<◌, ◌≤◌, ◌++◌, drop, false, is_err, length, map, sum, IsUtf8, OnOk, OnErr, take};
ghost use Rattle.std.specs.Int.Digits.{AllBelowBase};
ghost use Rattle.writeable.specs.AnnotatedText.{bytes};
ghost use Rattle.writeable.specs.Taking.{HasBegun, IsWriting};
ghost use Rattle.fixed_decimal.specs.Number.{whole_digits, fraction_digits};
ghost use Rattle.icu_decimal_plain.specs.BorrowedTables.{borrowed_tables};
ghost use Rattle.icu_decimal_plain.specs.PlainText.{chained, digit_text, fraction_text, unsigned_text, whole_text};
ghost use Rattle.icu_decimal_plain.specs.LaterGroups.{groups_ahead};

use crate::digit_chunks::{write_chunks, write_last, write_waiting};
use crate::piece_tables::DigitTable;
use crate::short_runs::{SHORT, put_short};
use crate::short_text::ShortText;
use crate::tables::DecimalTables;
use crate::writing::{fraction_len, highest, write_digits, write_fraction_digits};
use fixed_decimal::{ShownDigits, UnsignedDecimal};
use icu_decimal_grouping::{CHUNK, GroupSizes};
use std::iter::ExactSizeIterator;
use writeable::{Error, Sink};

// Writes a group with the separator before it.
#[tactic(auto, using(crate::proofs::PlainTextLemmas::bytes_chained))]
fn write_group<S: Sink>(
    separator: &str,
    digits: &mut ShownDigits<'_>,
    size: usize,
    table: &DigitTable<'_>,
    sink: &mut S,
) -> Result<(), Error>
    requires fine { S.refused sink.old ≡ false }
    requires tens { AllBelowBase 10 digits.old }
    ensures digits { OnOk result (digits.new ≡ drop size digits.old) }
    ensures ok { OnOk result
        (S.takes sink.old
        (bytes separator.now ++ bytes (chained (map (digit_text table.now.chars.now) (take size digits.old))))
        sink.new) }
    ensures refused { S.refused sink.new ≡ is_err result }
    ensures begun { OnErr result
        (HasBegun S.takes S.lacks_room sink.old
        (bytes separator.now ++ bytes (chained (map (digit_text table.now.chars.now) (take size digits.old))))
        sink.new) }
{
    sink.write_str(separator)?;
    write_digits(digits, size, table, sink)
}

// Writes groups one by one, each with the separator before it.
fn write_few<S: Sink>(
    separator: &str,
    digits: &mut ShownDigits<'_>,
    sizes: &mut GroupSizes,
    table: &DigitTable<'_>,
    sink: &mut S,
) -> Result<(), Error>
    requires fine { S.refused sink.old ≡ false }
    requires tens { AllBelowBase 10 digits.old }
    ensures digits { OnOk result (digits.new ≡ drop (sum sizes.old) digits.old) }
    ensures ok { OnOk result
        (S.takes sink.old (bytes (groups_ahead separator.now (digit_text table.now.chars.now) sizes.old digits.old))
        sink.new) }
    ensures refused { S.refused sink.new ≡ is_err result }
    ensures begun { OnErr result
        (HasBegun S.takes S.lacks_room sink.old
        (bytes (groups_ahead separator.now (digit_text table.now.chars.now) sizes.old digits.old)) sink.new) }
{
    while let Some(size) = sizes.next() {
        write_group(separator, digits, size, table, sink)?;
    }
    Ok(())
}

// Writes groups, each with the separator before it: under a separator of four bytes at most by chunks, as long as they
// fill one, then by one call of the sink where those left have a chunk of digits at most, and else one by one.
fn write_groups<S: Sink>(
    separator: &str,
    digits: &mut ShownDigits<'_>,
    sizes: &mut GroupSizes,
    table: &DigitTable<'_>,
    sink: &mut S,
) -> Result<(), Error>
    requires fine { S.refused sink.old ≡ false }
    requires tens { AllBelowBase 10 digits.old }
    ensures digits { OnOk result (digits.new ≡ drop (sum sizes.old) digits.old) }
    ensures ok { OnOk result
        (S.takes sink.old (bytes (groups_ahead separator.now (digit_text table.now.chars.now) sizes.old digits.old))
        sink.new) }
    ensures refused { S.refused sink.new ≡ is_err result }
    ensures begun { OnErr result
        (HasBegun S.takes S.lacks_room sink.old
        (bytes (groups_ahead separator.now (digit_text table.now.chars.now) sizes.old digits.old)) sink.new) }
{
    if separator.len() > 4 {
        return write_few(separator, digits, sizes, table, sink);
    }
    if digits.len() >= CHUNK {
        write_chunks(separator, digits, sizes, table, sink)?;
    }
    let left = digits.len();
    if left > CHUNK || left + sizes.groups() > 2 * CHUNK || left != sizes.digits() {
        return write_few(separator, digits, sizes, table, sink);
    }
    write_last(separator, digits, sizes, table, sink)
}

// Writes digits without groups.
#[tactic(auto, using(crate::proofs::PlainTextLemmas::bytes_chained))]
pub(crate) fn write_run<S: Sink>(
    digits: &mut ShownDigits<'_>,
    count: usize,
    table: &DigitTable<'_>,
    sink: &mut S,
) -> Result<(), Error>
    requires fine { S.refused sink.old ≡ false }
    requires tens { AllBelowBase 10 digits.old }
    ensures digits { OnOk result (digits.new ≡ drop count digits.old) }
    ensures ok { OnOk result
        (S.takes sink.old (bytes (chained (map (digit_text table.now.chars.now) (take count digits.old)))) sink.new) }
    ensures refused { S.refused sink.new ≡ is_err result }
    ensures begun { OnErr result
        (HasBegun S.takes S.lacks_room sink.old
        (bytes (chained (map (digit_text table.now.chars.now) (take count digits.old)))) sink.new) }
{
    if count < CHUNK || count > u16::MAX as usize {
        return write_digits(digits, count, table, sink);
    }
    let mut chunks = GroupSizes::chunks(count as u16);
    write_groups("", digits, &mut chunks, table, sink)
}

// Writes the text of the integer digits.
fn write_whole_text<S: Sink>(
    tables: &DecimalTables<'_>,
    number: &UnsignedDecimal,
    sink: &mut S,
) -> Result<(), Error>
    requires { S.refused sink.old ≡ false }
    ensures ok { OnOk result
        (S.takes sink.old (bytes (whole_text (borrowed_tables tables.now) (whole_digits number.now))) sink.new) }
    ensures refused { S.refused sink.new ≡ is_err result }
    ensures begun { OnErr result
        (HasBegun S.takes S.lacks_room sink.old
        (bytes (whole_text (borrowed_tables tables.now) (whole_digits number.now))) sink.new) }
{
    let symbols = tables.symbols.symbols;
    let table = &tables.digits;
    let mut sizes = GroupSizes::of(highest(number) + 1, tables.strategy, symbols.grouping_sizes);
    let mut digits = number.whole_digits();
    let first = sizes.next().unwrap_or(0);
    write_run(&mut digits, first, table, sink)?;
    write_groups(
        symbols.grouping_separator(),
        &mut digits,
        &mut sizes,
        table,
        sink,
    )
}

// Writes the decimal separator and the fraction digits, where there are any.
#[tactic(auto, using(crate::proofs::PlainTextLemmas::text_none))]
fn write_fraction_text<S: Sink>(
    tables: &DecimalTables<'_>,
    number: &UnsignedDecimal,
    sink: &mut S,
) -> Result<(), Error>
    requires { S.refused sink.old ≡ false }
    ensures ok { OnOk result
        (S.takes sink.old (bytes (fraction_text (borrowed_tables tables.now) (fraction_digits number.now))) sink.new) }
    ensures refused { S.refused sink.new ≡ is_err result }
    ensures begun { OnErr result
        (HasBegun S.takes S.lacks_room sink.old
        (bytes (fraction_text (borrowed_tables tables.now) (fraction_digits number.now))) sink.new) }
{
    if fraction_len(number) == 0 {
        return Ok(());
    }
    let symbols = tables.symbols.symbols;
    sink.write_str(symbols.decimal_separator())?;
    write_fraction_digits(&tables.digits, number, sink)
}

// Writes the text of a number without a sign that is not put together short: at once up to forty-seven digits, and else
// the integer digits before the fraction.
#[inline(never)]
fn write_long_text<S: Sink>(
    tables: &DecimalTables<'_>,
    number: &UnsignedDecimal,
    sink: &mut S,
) -> Result<(), Error>
    requires { S.refused sink.old ≡ false }
    ensures ok { OnOk result
        (S.takes sink.old (bytes (unsigned_text (borrowed_tables tables.now) number.now)) sink.new) }
    ensures refused { S.refused sink.new ≡ is_err result }
    ensures begun { OnErr result
        (HasBegun S.takes S.lacks_room sink.old (bytes (unsigned_text (borrowed_tables tables.now) number.now))
        sink.new) }
{
    let mut text = ShortText::new();
    if text.push_number(tables, number).is_some() {
        return sink.write_str(text.as_str());
    }
    write_whole_text(tables, number, sink)?;
    write_fraction_text(tables, number, sink)
}

// Writes the text of a number without a sign. Apart from its callers it has registers enough.
#[inline(never)]
pub(crate) fn write_unsigned_text<S: Sink>(
    tables: &DecimalTables<'_>,
    number: &UnsignedDecimal,
    sink: &mut S,
) -> Result<(), Error>
    requires { S.refused sink.old ≡ false }
    ensures ok { OnOk result
        (S.takes sink.old (bytes (unsigned_text (borrowed_tables tables.now) number.now)) sink.new) }
    ensures refused { S.refused sink.new ≡ is_err result }
    ensures begun { OnErr result
        (HasBegun S.takes S.lacks_room sink.old (bytes (unsigned_text (borrowed_tables tables.now) number.now))
        sink.new) }
{
    let mut text = [0; SHORT];
    match put_short(&mut text, tables, number) {
        Some(len) => write_waiting(&text, len, sink),
        None => write_long_text(tables, number, sink),
    }
}
