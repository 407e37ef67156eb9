//! Reading numbers of any format back, and writing them between affixes that were put together once.

ghost use Rattle.std.specs.Prelude.{◌≡◌, false, true, is_err, None, Some, IsErrOf, OnErr, OnOk};
ghost use Rattle.writeable.specs.AnnotatedText.{bytes};
ghost use Rattle.writeable.specs.Taking.{HasBegun};
ghost use Rattle.icu_decimal.specs.BorrowedTables.{borrowed_tables};
ghost use Rattle.icu_decimal.specs.HeldTables.{tables_of};
ghost use Rattle.icu_decimal.specs.PlainReading.{IsAnswered};
ghost use Rattle.icu_decimal.specs.Readable.{is_readable_by};
ghost use Rattle.icu_decimal.specs.ReadingLaws.{AreTables};
ghost use Rattle.icu_decimal_scientific.specs.HeldTables.{settings_of};
ghost use Rattle.icu_decimal_scientific.specs.ScientificReading.{HasManyBeside, is_scientific_readable_by};
ghost use Rattle.icu_decimal_scientific.specs.ScientificReadings.{scientific_reading};
ghost use Rattle.icu_dimension.specs.HeldReaders.{pair_of};
ghost use Rattle.icu_dimension.specs.UnitReading.{AreReaderTexts, HasManyBetween, is_unit_readable_by, text_by};
ghost use Rattle.locale_numbers_formatter.specs.JoinedUnit.{joined_events};
ghost use Rattle.icu_dimension_lenient.specs.UnitReadings.{unit_reading};
ghost use Rattle.locale_numbers_formatter.specs.FormatReading.{ReaderAllocates, is_joined, pairs_reader, reader_of, reading_by_reader, reads_between, text_by_reader};
ghost use Rattle.locale_numbers_formatter.specs.FormatText.{plain_tables};
ghost use Rattle.locale_numbers_formatter.specs.HeldScientific.{scientific_format};

use crate::laws::{plain_reads_by_pairs, written_reads_back};
use crate::scientific::ScientificFormatter;
use fixed_decimal::Decimal;
use icu_decimal::error::ReadError;
use icu_decimal::laws::text::text_law;
use icu_decimal::{
    DecimalFormatter, DecimalTables, FormattedUnsignedDecimal, is_readable, read_readable,
};
use icu_decimal_scientific::ScientificTables;
use icu_dimension::UnitReader;
use icu_dimension_affixes::steps::SignAffixes;
use icu_dimension_lenient::laws::functions_answer_readings;
use locale_numbers_formats::ScientificStyle;
use std::alloc::Global;
use std::marker::Model;
use writeable::{Error, Sink, Writeable};

// What reads the texts.
#[derive(Drop)]
pub(crate) enum ReaderKind<'a> {
    // Plain texts, between the affixes of the symbols.
    Plain(DecimalFormatter<'a>),
    // Texts with a unit, between affixes that were put together with it, and what decimals are written with.
    Unit(DecimalTables<'a>, UnitReader<'a>),
    // Texts of a significand and an exponent, by which exponents there are and how they are shown.
    Scientific(ScientificTables<'a>, ScientificStyle),
    // Compact text tells no number.
    Nothing,
}

/// What numbers of a format are read with, which was asked once whether texts can be read: that of `en` and `EUR` reads
/// `€1.50` as 1.50.
///
/// It borrows only what its formatter borrows, so both can be kept beside each other. A clause sees the tables and the
/// affixes of each sign, of a scientific format its tables and its exponents, or nothing of compact formats, which are not
/// read.
#[derive(Drop)]
pub struct NumberReader<'a> {
    kind: ReaderKind<'a>,
    is_readable: bool,
}

impl<'a> Model for NumberReader<'a> {
    ghost use Rattle.std.specs.Prelude.{Option};
    ghost use Rattle.locale_numbers_formatter.specs.FormatReading.{FormatReader};

    ghost Value = { Option FormatReader };

    ghost use Rattle.locale_numbers_formatter.specs.HeldNumberReaders.{IsAsked, texts_held};

    ghost view = { λ r. texts_held r.kind };

    ghost invariant = { λ r. IsAsked r.kind r.is_readable };
}

// The plain number whose text this is.
fn read_plain(
    alloc: Global,
    formatter: &DecimalFormatter<'_>,
    can_read: bool,
    text: &str,
) -> Result<Decimal, ReadError>
    requires tables { AreTables (tables_of formatter.now) }
    requires asked { can_read ≡ is_readable_by (tables_of formatter.now) }
    ensures memory { IsErrOf result ReadError.Memory
        → HasManyBetween (pairs_reader (plain_tables (tables_of formatter.now))) text.now }
    ensures reading { IsAnswered result
        (unit_reading (pairs_reader (plain_tables (tables_of formatter.now))) text.now) }
{
    plain_reads_by_pairs();
    if can_read {
        read_readable(alloc, formatter, text)
    } else {
        Err(ReadError::Unreadable)
    }
}

// The number whose text with its unit this is.
fn read_unit(
    alloc: Global,
    reader: &UnitReader<'_>,
    can_read: bool,
    text: &str,
) -> Result<Decimal, ReadError>
    requires texts { AreReaderTexts reader.now }
    requires asked { can_read ≡ is_unit_readable_by reader.now }
    ensures memory { IsErrOf result ReadError.Memory → HasManyBetween reader.now text.now }
    ensures reading { IsAnswered result (unit_reading reader.now text.now) }
{
    functions_answer_readings();
    if can_read {
        reader.read_readable(alloc, text)
    } else {
        Err(ReadError::Unreadable)
    }
}

// The decimal whose text with an exponent this is.
#[tactic(auto, using(icu_decimal_scientific::proofs::ScientificReadingsLemmas::unread))]
fn read_scientific(
    alloc: Global,
    tables: &ScientificTables<'_>,
    style: ScientificStyle,
    can_read: bool,
    text: &str,
) -> Result<Decimal, ReadError>
    requires { can_read ≡ is_scientific_readable_by (settings_of tables.now) }
    ensures memory { IsErrOf result ReadError.Memory → HasManyBeside (settings_of tables.now) text.now }
    ensures reading { IsAnswered result
        (scientific_reading (settings_of tables.now) style.notation style.exponents text.now) }
{
    if can_read {
        tables.read_readable_decimal(alloc, style.notation, style.exponents, text)
    } else {
        Err(ReadError::Unreadable)
    }
}

// Writes a plain number, without parts.
fn write_plain<S: Sink>(
    formatter: &DecimalFormatter<'_>,
    value: &Decimal,
    sink: &mut S,
) -> Result<(), Error>
    requires { S.refused sink.old ≡ false }
    ensures ok { OnOk result (S.takes sink.old
        (bytes (text_by (pairs_reader (plain_tables (tables_of formatter.now))) value.now)) sink.new) }
    ensures refused { S.refused sink.new ≡ is_err result }
    ensures begun { OnErr result (HasBegun S.takes S.lacks_room sink.old
        (bytes (text_by (pairs_reader (plain_tables (tables_of formatter.now))) value.now)) sink.new) }
{
    text_law();
    written_reads_back();
    formatter.format(value).write_text(sink)
}

// Writes a number between affixes, without parts.
fn write_between<S: Sink>(
    affixes: &SignAffixes,
    number: &FormattedUnsignedDecimal<'_>,
    sink: &mut S,
) -> Result<(), Error>
    requires { S.refused sink.old ≡ false }
    ensures ok { OnOk result
        (S.takes sink.old (joined_events (record { number = number.now; affixes = pair_of affixes.now })) sink.new) }
    ensures refused { S.refused sink.new ≡ is_err result }
    ensures begun { OnErr result (HasBegun S.takes S.lacks_room sink.old
        (joined_events (record { number = number.now; affixes = pair_of affixes.now })) sink.new) }
{
    sink.write_str(affixes.before.as_str())?;
    number.write_text(sink)?;
    sink.write_str(affixes.after.as_str())
}

// Writes a number with its unit, without parts, between the affixes of a reader of these tables.
fn write_unit<S: Sink>(
    decimals: &DecimalTables<'_>,
    reader: &UnitReader<'_>,
    value: &Decimal,
    sink: &mut S,
) -> Result<(), Error>
    requires fine { S.refused sink.old ≡ false }
    requires same { borrowed_tables decimals.now ≡ reader.now.tables }
    ensures ok { OnOk result (S.takes sink.old (bytes (text_by reader.now value.now)) sink.new) }
    ensures refused { S.refused sink.new ≡ is_err result }
    ensures begun { OnErr result
        (HasBegun S.takes S.lacks_room sink.old (bytes (text_by reader.now value.now)) sink.new) }
{
    let number = decimals.format_unsigned(&value.absolute);
    write_between(reader.affixes(value.sign), &number, sink)
}

impl<'a> NumberReader<'a> {
    // The reader of plain numbers.
    pub(crate) fn of_plain(formatter: DecimalFormatter<'a>) -> Self
        ensures { result ≡ reader_of (plain_tables (tables_of formatter.entry)) }
    {
        let is_readable = is_readable(&formatter);
        NumberReader {
            kind: ReaderKind::Plain(formatter),
            is_readable,
        }
    }

    // The reader of compact numbers, which reads none.
    pub(crate) fn of_nothing() -> Self
        ensures { result ≡ None }
    {
        NumberReader {
            kind: ReaderKind::Nothing,
            is_readable: false,
        }
    }

    // The reader of numbers with a unit that are written with these tables.
    pub(crate) fn of_unit(decimals: DecimalTables<'a>, reader: UnitReader<'a>) -> Self
        requires { borrowed_tables decimals ≡ reader.tables }
        ensures { result ≡ Some (reads_between reader.entry) }
    {
        let is_readable = reader.is_readable();
        NumberReader {
            kind: ReaderKind::Unit(decimals, reader),
            is_readable,
        }
    }

    // The reader of scientific numbers.
    pub(crate) fn of_scientific(formatter: &ScientificFormatter<'a>) -> Self
        ensures { result ≡ reader_of (scientific_format formatter.now) }
    {
        let is_readable = formatter.tables.is_readable();
        NumberReader {
            kind: ReaderKind::Scientific(formatter.tables, formatter.style),
            is_readable,
        }
    }

    /// The number whose text this is: by that of `en` and `EUR` 1.50 of `€1.50`, and by that of scientific numbers of `en`
    /// 1200000 of `1.20E6`.
    ///
    /// Sign, digits and visible range are those of the one number that is written so; of a scientific text those of its
    /// significand, with the point moved. `Unreadable`: texts can't be read back, as those of a compact format, which is
    /// said before the text is looked at. `NotWritten`: no number is written so; how many digits of a significand a format
    /// shows is not looked at. `Memory`: out of memory. It allocates where more than sixteen digits are between the affixes
    /// of a sign, of a scientific text before the exponent or in it.
    pub fn read(&self, alloc: Global, text: &str) -> Result<Decimal, ReadError>
        ensures memory { IsErrOf result ReadError.Memory → ReaderAllocates self.now text.now }
        ensures reading { IsAnswered result (reading_by_reader self.now text.now) }
    {
        match &self.kind {
            ReaderKind::Plain(formatter) => read_plain(alloc, formatter, self.is_readable, text),
            ReaderKind::Unit(_, reader) => read_unit(alloc, reader, self.is_readable, text),
            ReaderKind::Scientific(tables, style) => {
                read_scientific(alloc, tables, *style, self.is_readable, text)
            }
            ReaderKind::Nothing => Err(ReadError::Unreadable),
        }
    }

    /// Whether it writes numbers too, between affixes: that of each format does, but those of compact and of scientific
    /// numbers.
    ///
    /// It is the condition of `write`. It does not allocate.
    pub fn joins(&self) -> bool
        ensures { result ≡ is_joined self.now }
    {
        match &self.kind {
            ReaderKind::Plain(_) | ReaderKind::Unit(_, _) => true,
            ReaderKind::Scientific(_, _) | ReaderKind::Nothing => false,
        }
    }

    /// Writes a number as the formatter does, without parts, between affixes that the reader has put together: -1234.5 as
    /// `-€1,234.5`.
    ///
    /// The condition is `joins`, and that the sink has not refused yet. [`Error`] exactly
    /// where the sink refused, which has then taken a beginning. Only the sink may allocate.
    pub fn write<S: Sink>(&self, value: &Decimal, sink: &mut S) -> Result<(), Error>
        requires fine { S.refused sink.old ≡ false }
        requires joins { is_joined self.now ≡ true }
        ensures ok { OnOk result (S.takes sink.old (bytes (text_by_reader self.now value.now)) sink.new) }
        ensures refused { S.refused sink.new ≡ is_err result }
        ensures begun { OnErr result
            (HasBegun S.takes S.lacks_room sink.old (bytes (text_by_reader self.now value.now)) sink.new) }
    {
        match &self.kind {
            ReaderKind::Plain(formatter) => write_plain(formatter, value, sink),
            ReaderKind::Unit(decimals, reader) => write_unit(decimals, reader, value, sink),
            ReaderKind::Scientific(_, _) | ReaderKind::Nothing => unreachable!(),
        }
    }
}
