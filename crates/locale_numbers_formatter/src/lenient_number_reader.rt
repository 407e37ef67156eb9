//! Reading what people type of numbers of any format.

ghost use Rattle.std.specs.Prelude.{◌≡◌, codes, IfOk, IsErrOf, option_map};
ghost use Rattle.icu_decimal.specs.HeldTables.{tables_of};
ghost use Rattle.icu_decimal.specs.PlainReading.{IsAnswered};
ghost use Rattle.icu_dimension.specs.HeldFormatters.{code_of, currency_settings_of, settings_of_percent, sign_of};
ghost use Rattle.locale_numbers_formatter.specs.FormatText.{plain_tables, unit_tables};
ghost use Rattle.locale_numbers_formatter.specs.FormatTyped.{TypedAllocates, nothing_typed, plain_in, reading_by_typed, typed_of, typed_unit, unit_in};
ghost use Rattle.locale_numbers_formatter.specs.HeldFormats.{currency_format, percent_format};

use crate::asked_unit_reader::AskedUnitReader;
use crate::number_formatter::{FormatterKind, NumberFormatter};
use crate::plain_readers_in_turn::PlainReadersInTurn;
use crate::typed_unit_reader::TypedUnitReader;
use crate::unit_readers_in_turn::UnitReadersInTurn;
use fixed_decimal::Decimal;
use icu_decimal::DecimalFormatter;
use icu_decimal::error::ReadError;
use icu_dimension::{CurrencyFormatter, PercentFormatter};
use std::alloc::{AllocError, Global};
use std::marker::Model;

// What reads the texts.
#[derive(Drop)]
pub(crate) enum LenientKind<'a> {
    // Plain numbers.
    Plain(PlainReadersInTurn<'a>),
    // Numbers with a unit.
    Unit(UnitReadersInTurn<'a>),
    // Compact text tells no number, and scientific text is not read.
    Nothing,
}

/// What reads what people type of numbers of a format, as a form has it: that of `en` and `EUR` reads `€1.5`, `1.5` and
/// `1.5 EUR` as 1.5.
///
/// Symbols, affixes and units are folded once. It borrows only what its formatters borrow. A clause sees what texts are
/// read with.
#[derive(Drop)]
pub struct LenientNumberReader<'a> {
    kind: LenientKind<'a>,
}

impl<'a> Model for LenientNumberReader<'a> {
    ghost use Rattle.locale_numbers_formatter.specs.FormatTyped.{TypedTables};

    ghost Value = { TypedTables };

    ghost use Rattle.locale_numbers_formatter.specs.HeldLenientReaders.{typed_held};

    ghost view = { λ r. typed_held r.kind };
}

// The second formatter, where it is one of plain numbers.
fn second_plain<'a>(second: Option<&NumberFormatter<'a>>) -> Option<DecimalFormatter<'a>>
    ensures { option_map tables_of result ≡ plain_in (option_map (λ f. f.now) second.entry) }
{
    match &second?.kind {
        FormatterKind::Plain(formatter) => Some(*formatter),
        FormatterKind::Compact(_)
        | FormatterKind::CompactDigits(_)
        | FormatterKind::Percent(_)
        | FormatterKind::Currency(_)
        | FormatterKind::Scientific(_) => None,
    }
}

// What reads what people type of percents, or what they are written as and no more, where texts can't be read leniently.
#[tactic(auto, using(crate::proofs::TypedLemmas::typed_leniently, crate::proofs::TypedLemmas::typed_exactly))]
fn typed_percents<'a>(
    alloc: Global,
    formatter: &PercentFormatter<'a>,
) -> Result<TypedUnitReader<'a>, AllocError>
    ensures { IfOk result (λ reader. reader
        ≡ typed_unit (percent_format (sign_of formatter.now) (settings_of_percent formatter.now))) }
{
    match formatter.lenient_reader(alloc) {
        Ok(reader) => Ok(TypedUnitReader::leniently(reader)),
        Err(ReadError::Unreadable) => match formatter.reader(alloc) {
            Ok(reader) => Ok(TypedUnitReader::exactly(AskedUnitReader::new(reader))),
            Err(refused) => Err(refused),
        },
        Err(ReadError::NotWritten) => unreachable!(),
        Err(ReadError::Memory) => Err(AllocError),
    }
}

// The same of amounts.
#[tactic(auto, using(crate::proofs::TypedLemmas::typed_leniently, crate::proofs::TypedLemmas::typed_exactly))]
fn typed_amounts<'a>(
    alloc: Global,
    formatter: &CurrencyFormatter<'a>,
) -> Result<TypedUnitReader<'a>, AllocError>
    ensures { IfOk result (λ reader. reader
        ≡ typed_unit (currency_format (code_of formatter.now) (currency_settings_of formatter.now))) }
{
    match formatter.lenient_reader(alloc) {
        Ok(reader) => Ok(TypedUnitReader::leniently(reader)),
        Err(ReadError::Unreadable) => match formatter.reader(alloc) {
            Ok(reader) => Ok(TypedUnitReader::exactly(AskedUnitReader::new(reader))),
            Err(refused) => Err(refused),
        },
        Err(ReadError::NotWritten) => unreachable!(),
        Err(ReadError::Memory) => Err(AllocError),
    }
}

// What reads what people type of numbers with a unit by a second formatter, where it is one of these. It is apart, so that
// it and the first one take room on the stack in turn.
#[inline(never)]
fn second_unit<'a>(
    alloc: Global,
    second: Option<&NumberFormatter<'a>>,
) -> Result<Option<TypedUnitReader<'a>>, AllocError>
    ensures { IfOk result
        (λ reader. reader ≡ option_map typed_unit (unit_in (option_map (λ f. f.now) second.entry))) }
{
    let Some(second) = second else {
        return Ok(None);
    };
    match &second.kind {
        FormatterKind::Percent(formatter) => match typed_percents(alloc, formatter) {
            Ok(reader) => Ok(Some(reader)),
            Err(refused) => Err(refused),
        },
        FormatterKind::Currency(formatter) => match typed_amounts(alloc, formatter) {
            Ok(reader) => Ok(Some(reader)),
            Err(refused) => Err(refused),
        },
        FormatterKind::Plain(_)
        | FormatterKind::Compact(_)
        | FormatterKind::CompactDigits(_)
        | FormatterKind::Scientific(_) => Ok(None),
    }
}

impl<'a> LenientNumberReader<'a> {
    // The reader of plain numbers.
    pub(crate) fn of_plain(
        alloc: Global,
        formatter: &DecimalFormatter<'a>,
        second: Option<&NumberFormatter<'a>>,
    ) -> Self
        ensures { result ≡ typed_of (plain_tables (tables_of formatter.now))
            (option_map (λ f. f.now) second.entry) }
    {
        let second = second_plain(second);
        LenientNumberReader {
            kind: LenientKind::Plain(PlainReadersInTurn::keeping(alloc, *formatter, second)),
        }
    }

    // The reader of compact and of scientific numbers, which reads none.
    pub(crate) fn of_nothing() -> Self
        ensures { result ≡ nothing_typed }
    {
        LenientNumberReader {
            kind: LenientKind::Nothing,
        }
    }

    // The reader of percents. It is apart, so that it and that of amounts take room on the stack in turn.
    #[inline(never)]
    pub(crate) fn of_percent(
        alloc: Global,
        formatter: &PercentFormatter<'a>,
        second: Option<&NumberFormatter<'a>>,
    ) -> Result<Self, AllocError>
        ensures { IfOk result (λ reader. reader
            ≡ typed_of (unit_tables (percent_format (sign_of formatter.now) (settings_of_percent formatter.now)))
            (option_map (λ f. f.now) second.entry)) }
    {
        let second = second_unit(alloc, second)?;
        match typed_percents(alloc, formatter) {
            Ok(first) => Ok(LenientNumberReader {
                kind: LenientKind::Unit(UnitReadersInTurn::new(first, second)),
            }),
            Err(refused) => {
                drop(second);
                Err(refused)
            }
        }
    }

    // The reader of amounts, apart as that of percents is.
    #[inline(never)]
    pub(crate) fn of_currency(
        alloc: Global,
        formatter: &CurrencyFormatter<'a>,
        second: Option<&NumberFormatter<'a>>,
    ) -> Result<Self, AllocError>
        ensures { IfOk result (λ reader. reader
            ≡ typed_of
            (unit_tables (currency_format (code_of formatter.now) (currency_settings_of formatter.now)))
            (option_map (λ f. f.now) second.entry)) }
    {
        let second = second_unit(alloc, second)?;
        match typed_amounts(alloc, formatter) {
            Ok(first) => Ok(LenientNumberReader {
                kind: LenientKind::Unit(UnitReadersInTurn::new(first, second)),
            }),
            Err(refused) => {
                drop(second);
                Err(refused)
            }
        }
    }

    /// The number that was typed: by that of `en` and `EUR` 1.5 of `€1.5`, `1.5` and `1.5 EUR`; by that of plain numbers 0.5
    /// of `.5`.
    ///
    /// `Unreadable`: texts can't be read, or not leniently and no number is written so; those of a compact or a scientific
    /// format never can.
    /// `NotWritten`: it is a text of no number, or of two. `Memory`: out of memory. It allocates where the text has more
    /// than sixteen digits, or is folded.
    pub fn read(&self, alloc: Global, text: &str) -> Result<Decimal, ReadError>
        ensures memory { IsErrOf result ReadError.Memory → TypedAllocates self.now text.now }
        ensures reading { IsAnswered result (reading_by_typed self.now text.now) }
    {
        match &self.kind {
            LenientKind::Plain(reader) => reader.read(alloc, text),
            LenientKind::Unit(readers) => readers.read(alloc, text),
            LenientKind::Nothing => Err(ReadError::Unreadable),
        }
    }
}
