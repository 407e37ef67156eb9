//! Writing digits to a sink, each text in its part.

ghost use Rattle.std.specs.Prelude.{◌≡◌, ℕ, ◌+◌, ◌-◌, ◌<◌, ◌≤◌, ◌++◌, codes, drop, false, is_err, OnOk, OnErr, map, take};
ghost use Rattle.std.specs.Int.Digits.{AllBelowBase};
ghost use Rattle.writeable.specs.AnnotatedText.{bytes, opening, closing};
ghost use Rattle.writeable.specs.PartName.{name_of};
ghost use Rattle.writeable.specs.Taking.{HasBegun};
ghost use Rattle.fixed_decimal.specs.Number.{whole_digits, fraction_digits};
ghost use Rattle.icu_decimal_plain.specs.Affixes.{as_part, decimal_part};
ghost use Rattle.icu_decimal_plain.specs.PlainText.{chained, digit_events, digit_text, fraction_events, integer_events, unsigned_events, whole_events};
ghost use Rattle.icu_decimal_plain.specs.BorrowedTables.{borrowed_tables};
ghost use Rattle.icu_decimal_plain.specs.LaterGroups.{later_events};

use crate::piece_tables::DigitTable;
use crate::short_text::ShortText;
use crate::tables::DecimalTables;
use crate::text_writing::write_run;
use fixed_decimal::{ShownDigits, UnsignedDecimal};
use icu_decimal_grouping::GroupSizes;
use icu_decimal_symbols::parts;
use writeable::{Error, Part, Sink};

// Writes a text as a part.
pub(crate) fn write_part<S: Sink>(part: Part, text: &str, sink: &mut S) -> Result<(), Error>
    requires { S.refused sink.old ≡ false }
    ensures ok { OnOk result (S.takes sink.old (as_part (name_of part) text.now) sink.new) }
    ensures refused { S.refused sink.new ≡ is_err result }
    ensures begun { OnErr result (HasBegun S.takes S.lacks_room sink.old (as_part (name_of part) text.now) sink.new) }
{
    sink.open_part(part)?;
    sink.write_str(text)?;
    sink.close_part()
}

// How many digits are written by one call of the sink at most.
const PIECE: usize = 16;

// Writes the next digits by one call of the sink.
#[tactic(auto, using(crate::proofs::PlainTextLemmas::bytes_chained))]
fn write_piece<S: Sink>(
    digits: &mut ShownDigits<'_>,
    count: usize,
    table: &DigitTable<'_>,
    sink: &mut S,
) -> Result<(), Error>
    requires fine { S.refused sink.old ≡ false }
    requires few { count ≤ 16 }
    requires tens { AllBelowBase 10 digits.old }
    ensures digits { digits.new ≡ drop count digits.old }
    ensures ok { OnOk result
        (S.takes sink.old (chained (map (digit_events table.now.chars.now) (take count digits.old))) sink.new) }
    ensures refused { S.refused sink.new ≡ is_err result }
    ensures begun { OnErr result
        (HasBegun S.takes S.lacks_room sink.old
        (chained (map (digit_events table.now.chars.now) (take count digits.old))) sink.new) }
{
    let mut text = ShortText::new();
    text.push_digits(digits, count, table);
    sink.write_str(text.as_str())
}

// Writes the next `count` digits.
pub(crate) fn write_digits<S: Sink>(
    digits: &mut ShownDigits<'_>,
    count: usize,
    table: &DigitTable<'_>,
    sink: &mut S,
) -> Result<(), Error>
    requires fine { S.refused sink.old ≡ false }
    requires tens { AllBelowBase 10 digits.old }
    ensures digits { OnOk result (digits.new ≡ drop count digits.old) }
    ensures ok { OnOk result
        (S.takes sink.old (chained (map (digit_events table.now.chars.now) (take count digits.old))) sink.new) }
    ensures refused { S.refused sink.new ≡ is_err result }
    ensures begun { OnErr result
        (HasBegun S.takes S.lacks_room sink.old
        (chained (map (digit_events table.now.chars.now) (take count digits.old))) sink.new) }
{
    let mut left = count;
    while left > 0 {
        let size = left.min(PIECE);
        left -= size;
        write_piece(digits, size, table, sink)?;
    }
    Ok(())
}

// Writes the grouping separator, and the group after it.
fn write_group<S: Sink>(
    separator: &str,
    digits: &mut ShownDigits<'_>,
    count: usize,
    table: &DigitTable<'_>,
    sink: &mut S,
) -> Result<(), Error>
    requires fine { S.refused sink.old ≡ false }
    requires tens { AllBelowBase 10 digits.old }
    ensures digits { OnOk result (digits.new ≡ drop count digits.old) }
    ensures ok { OnOk result (S.takes sink.old
        (as_part (decimal_part (codes "group")) separator.now
        ++ chained (map (digit_events table.now.chars.now) (take count digits.old)))
        sink.new) }
    ensures refused { S.refused sink.new ≡ is_err result }
    ensures begun { OnErr result (HasBegun S.takes S.lacks_room sink.old
        (as_part (decimal_part (codes "group")) separator.now
        ++ chained (map (digit_events table.now.chars.now) (take count digits.old)))
        sink.new) }
{
    write_part(parts::GROUP, separator, sink)?;
    write_digits(digits, count, table, sink)
}

// Writes the groups after the first.
fn write_groups<S: Sink>(
    separator: &str,
    digits: &mut ShownDigits<'_>,
    sizes: &mut GroupSizes,
    table: &DigitTable<'_>,
    sink: &mut S,
) -> Result<(), Error>
    requires fine { S.refused sink.old ≡ false }
    requires tens { AllBelowBase 10 digits.old }
    ensures ok { OnOk result
        (S.takes sink.old (later_events separator.now table.now.chars.now sizes.old digits.old) sink.new) }
    ensures refused { S.refused sink.new ≡ is_err result }
    ensures begun { OnErr result
        (HasBegun S.takes S.lacks_room sink.old (later_events separator.now table.now.chars.now sizes.old digits.old)
        sink.new) }
{
    while let Some(size) = sizes.next() {
        write_group(separator, digits, size, table, sink)?;
    }
    Ok(())
}

// The highest magnitude that is shown.
pub(crate) fn highest(number: &UnsignedDecimal) -> u16
    ensures value { 32768 + result ≡ number.now.high }
    ensures bound { result < 32768 }
{
    *number.magnitude_range().end() as u16
}

// Writes the integer digits in their groups.
fn write_whole<S: Sink>(
    tables: &DecimalTables<'_>,
    number: &UnsignedDecimal,
    sink: &mut S,
) -> Result<(), Error>
    requires { S.refused sink.old ≡ false }
    ensures ok { OnOk result
        (S.takes sink.old (whole_events (borrowed_tables tables.now) (whole_digits number.now)) sink.new) }
    ensures refused { S.refused sink.new ≡ is_err result }
    ensures begun { OnErr result
        (HasBegun S.takes S.lacks_room sink.old (whole_events (borrowed_tables tables.now) (whole_digits number.now))
        sink.new) }
{
    let symbols = tables.symbols.symbols;
    let table = &tables.digits;
    let mut sizes = GroupSizes::of(highest(number) + 1, tables.strategy, symbols.grouping_sizes);
    let mut digits = number.whole_digits();
    let first = sizes.next().unwrap_or(0);
    write_digits(&mut digits, first, table, sink)?;
    write_groups(
        symbols.grouping_separator(),
        &mut digits,
        &mut sizes,
        table,
        sink,
    )
}

// How many fraction digits are shown.
pub(crate) fn fraction_len(number: &UnsignedDecimal) -> u16
    ensures value { number.now.low + result ≡ 32768 }
{
    (0 - *number.magnitude_range().start() as i32) as u16
}

// How many digits are shown.
pub(crate) fn digits_shown(number: &UnsignedDecimal) -> usize
    ensures { result ≡ (number.now.high - 32767) + (32768 - number.now.low) }
{
    highest(number) as usize + 1 + fraction_len(number) as usize
}

// Writes the fraction digits.
pub(crate) fn write_fraction_digits<S: Sink>(
    table: &DigitTable<'_>,
    number: &UnsignedDecimal,
    sink: &mut S,
) -> Result<(), Error>
    requires { S.refused sink.old ≡ false }
    ensures ok { OnOk result
        (S.takes sink.old (chained (map (digit_events table.now.chars.now) (fraction_digits number.now))) sink.new) }
    ensures refused { S.refused sink.new ≡ is_err result }
    ensures begun { OnErr result
        (HasBegun S.takes S.lacks_room sink.old
        (chained (map (digit_events table.now.chars.now) (fraction_digits number.now))) sink.new) }
{
    let mut shown = number.fraction_digits();
    write_run(&mut shown, fraction_len(number) as usize, table, sink)
}

// Writes the integer digits as their part.
fn write_integer<S: Sink>(
    tables: &DecimalTables<'_>,
    number: &UnsignedDecimal,
    sink: &mut S,
) -> Result<(), Error>
    requires { S.refused sink.old ≡ false }
    ensures ok { OnOk result
        (S.takes sink.old (integer_events (borrowed_tables tables.now) (whole_digits number.now)) sink.new) }
    ensures refused { S.refused sink.new ≡ is_err result }
    ensures begun { OnErr result
        (HasBegun S.takes S.lacks_room sink.old (integer_events (borrowed_tables tables.now) (whole_digits number.now))
        sink.new) }
{
    sink.open_part(parts::INTEGER)?;
    write_whole(tables, number, sink)?;
    sink.close_part()
}

// Writes the fraction digits as their part.
fn write_fraction_part<S: Sink>(
    table: &DigitTable<'_>,
    number: &UnsignedDecimal,
    sink: &mut S,
) -> Result<(), Error>
    requires { S.refused sink.old ≡ false }
    ensures ok { OnOk result (S.takes sink.old
        (opening (decimal_part (codes "fraction")) ++ (chained
        (map (digit_events table.now.chars.now) (fraction_digits number.now)) ++ closing))
        sink.new) }
    ensures refused { S.refused sink.new ≡ is_err result }
    ensures begun { OnErr result (HasBegun S.takes S.lacks_room sink.old
        (opening (decimal_part (codes "fraction")) ++ (chained
        (map (digit_events table.now.chars.now) (fraction_digits number.now)) ++ closing))
        sink.new) }
{
    sink.open_part(parts::FRACTION)?;
    write_fraction_digits(table, number, sink)?;
    sink.close_part()
}

// Writes the decimal separator and the fraction digits, where there are any.
#[tactic(auto, using(crate::proofs::PlainTextLemmas::fraction_some, crate::proofs::PlainTextLemmas::fraction_none))]
fn write_fraction<S: Sink>(
    tables: &DecimalTables<'_>,
    number: &UnsignedDecimal,
    sink: &mut S,
) -> Result<(), Error>
    requires { S.refused sink.old ≡ false }
    ensures ok { OnOk result
        (S.takes sink.old (fraction_events (borrowed_tables tables.now) (fraction_digits number.now)) sink.new) }
    ensures refused { S.refused sink.new ≡ is_err result }
    ensures begun { OnErr result
        (HasBegun S.takes S.lacks_room sink.old
        (fraction_events (borrowed_tables tables.now) (fraction_digits number.now)) sink.new) }
{
    if fraction_len(number) == 0 {
        return Ok(());
    }
    let symbols = tables.symbols.symbols;
    write_part(parts::DECIMAL, symbols.decimal_separator(), sink)?;
    write_fraction_part(&tables.digits, number, sink)
}

// Writes a number without a sign.
pub(crate) fn write_unsigned<S: Sink>(
    tables: &DecimalTables<'_>,
    number: &UnsignedDecimal,
    sink: &mut S,
) -> Result<(), Error>
    requires { S.refused sink.old ≡ false }
    ensures ok { OnOk result
        (S.takes sink.old (unsigned_events (record { number = number.now; tables = borrowed_tables tables.now }))
        sink.new) }
    ensures refused { S.refused sink.new ≡ is_err result }
    ensures begun { OnErr result
        (HasBegun S.takes S.lacks_room sink.old
        (unsigned_events (record { number = number.now; tables = borrowed_tables tables.now })) sink.new) }
{
    write_integer(tables, number, sink)?;
    write_fraction(tables, number, sink)
}
