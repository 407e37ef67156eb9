//! A formatter of numbers in any format.

ghost use Rattle.std.specs.Prelude.{◌≡◌, ◌≢◌, ◌↔◌, Some, None, IfErr, IfOk, IsErrOf, IsOk, IsTrue, OnErr, option_map};
ghost use Rattle.fixed_decimal.specs.Range.{IsLong};
ghost use Rattle.writeable.specs.AnnotatedText.{text_of};
ghost use Rattle.icu_decimal.specs.HeldCompact.{compact_tables_of};
ghost use Rattle.icu_decimal.specs.HeldTables.{tables_of};
ghost use Rattle.icu_dimension.specs.HeldFormatters.{code_of, currency_settings_of, settings_of_percent, sign_of};
ghost use Rattle.locale_numbers_formatter.specs.ExactForms.{IsFormInRange, exact_shown};
ghost use Rattle.locale_numbers_formatter.specs.FormatParts.{exact_format_events, format_events};
ghost use Rattle.locale_numbers_formatter.specs.FormatReading.{reader_of};
ghost use Rattle.locale_numbers_formatter.specs.FormatText.{CanFormat, FormatAllocates, HasNoUnit, ShowAllocates, compact_tables, compact_value, digits_tables, format_text, format_value, fractions_in, plain_tables, scientific_tables, unit_tables};
ghost use Rattle.locale_numbers_formatter.specs.FormatTyped.{typed_of};
ghost use Rattle.locale_numbers_formatter.specs.FormattedNumbers.{formatted_events};
ghost use Rattle.locale_numbers_formatter.specs.HeldDigits.{compact_held, digits_format, options_held};
ghost use Rattle.locale_numbers_formatter.specs.HeldFormats.{currency_format, format_of, percent_format};
ghost use Rattle.locale_numbers_formatter.specs.HeldScientific.{scientific_format, scientific_held};
ghost use Rattle.locale_numbers_formatter.specs.HeldShown.{value_held};

use crate::compact_digits::CompactDigitsFormatter;
use crate::error::ExactError;
use crate::formatted_digits::FormattedDigits;
use crate::formatted_number::FormattedNumber;
use crate::formatted_power::FormattedPower;
use crate::laws::{
    compact_is_layered, format_is_text, plain_is_layered, scientific_is_layered, unit_is_layered,
};
use crate::lenient_number_reader::LenientNumberReader;
use crate::number_reader::NumberReader;
use crate::scientific::ScientificFormatter;
use crate::shown_number::ShownNumber;
use fixed_decimal::{CompactDecimal, Decimal, FixedInteger, ScientificDecimal};
use icu_decimal::{CompactDecimalFormatter, DecimalFormatter};
use icu_dimension::{CurrencyFormatter, FractionInfo, PercentFormatter};
use std::alloc::{AllocError, Global};
use std::marker::Model;

/// Which formatter a number is written with: that of plain numbers writes 1234.5 as `1,234.5` in English.
#[derive(Clone, Copy, Debug)]
pub enum FormatterKind<'a> {
    /// Of plain numbers: `1,234.5`.
    Plain(DecimalFormatter<'a>),
    /// Of compact numbers: `1.2K`.
    Compact(CompactDecimalFormatter<'a>),
    /// Of compact numbers with digits of their own: `1.23K`.
    CompactDigits(CompactDigitsFormatter<'a>),
    /// Of percents: `12.5%`, `12.5‰`.
    Percent(PercentFormatter<'a>),
    /// Of amounts in one currency: `€1.50`.
    Currency(CurrencyFormatter<'a>),
    /// Of numbers in scientific notation: `1.2345E3`.
    Scientific(ScientificFormatter<'a>),
}

/// What numbers of a format are written with: the tables of a locale, which it borrows. It is made of the formatter of
/// the format.
///
/// That of the percents of English writes -12.5 as `-12.5%`. A clause sees what is written with. After ICU4C's
/// `LocalizedNumberFormatter`.
#[derive(Debug, Drop)]
pub struct NumberFormatter<'a> {
    pub(crate) kind: FormatterKind<'a>,
}

impl<'a> Model for NumberFormatter<'a> {
    ghost use Rattle.locale_numbers_formatter.specs.FormatText.{FormatTables};

    ghost Value = { FormatTables };

    ghost use Rattle.locale_numbers_formatter.specs.HeldFormats.{format_of};

    ghost view = { λ f. format_of f.kind };
}

/// The formatter of plain numbers: that of `en` writes -1234.5 as `-1,234.5`. It does not allocate.
impl<'a> From<DecimalFormatter<'a>> for NumberFormatter<'a> {
    ghost from_gives = { λ formatter made. made ≡ plain_tables (tables_of formatter) };

    fn from(formatter: DecimalFormatter<'a>) -> Self {
        NumberFormatter {
            kind: FormatterKind::Plain(formatter),
        }
    }
}

/// The formatter of compact numbers: that of `en` in short form writes -1172700 as `-1.2M`. It does not allocate.
impl<'a> From<CompactDecimalFormatter<'a>> for NumberFormatter<'a> {
    ghost from_gives = { λ formatter made. made ≡ compact_tables (compact_tables_of formatter) };

    fn from(formatter: CompactDecimalFormatter<'a>) -> Self {
        NumberFormatter {
            kind: FormatterKind::Compact(formatter),
        }
    }
}

/// The formatter of compact numbers with digits of their own: that of `en` in short form with two fraction digits writes
/// -1234 as `-1.23K`. It does not allocate.
impl<'a> From<CompactDigitsFormatter<'a>> for NumberFormatter<'a> {
    ghost from_gives = { λ formatter made. made ≡ digits_tables (compact_held formatter) (options_held formatter) };

    fn from(formatter: CompactDigitsFormatter<'a>) -> Self {
        NumberFormatter {
            kind: FormatterKind::CompactDigits(formatter),
        }
    }
}

/// The formatter of percents: that of `en` writes -12.5 as `-12.5%`. It does not allocate.
impl<'a> From<PercentFormatter<'a>> for NumberFormatter<'a> {
    ghost from_gives = { λ formatter made.
        made ≡ unit_tables (percent_format (sign_of formatter) (settings_of_percent formatter)) };

    fn from(formatter: PercentFormatter<'a>) -> Self {
        NumberFormatter {
            kind: FormatterKind::Percent(formatter),
        }
    }
}

/// The formatter of numbers in scientific notation: that of `en` writes -1234.5 as `-1.2345E3`. It does not allocate.
impl<'a> From<ScientificFormatter<'a>> for NumberFormatter<'a> {
    ghost from_gives = { λ formatter made. made ≡ scientific_tables (scientific_held formatter) };

    fn from(formatter: ScientificFormatter<'a>) -> Self {
        NumberFormatter {
            kind: FormatterKind::Scientific(formatter),
        }
    }
}

// A plain number.
fn format_plain<'l>(formatter: &'l DecimalFormatter<'_>, value: &'l Decimal) -> FormattedNumber<'l>
    ensures { formatted_events result ≡ format_events (plain_tables (tables_of formatter.now)) value.now }
{
    plain_is_layered();
    FormattedNumber::Plain(formatter.format(value))
}

// A compact number.
fn format_compact<'l>(
    formatter: &'l CompactDecimalFormatter<'_>,
    value: &'l Decimal,
) -> Result<FormattedNumber<'l>, AllocError>
    requires { CanFormat (compact_tables (compact_tables_of formatter.now)) value.now }
    ensures value { IfOk result (λ number.
        formatted_events number ≡ format_events (compact_tables (compact_tables_of formatter.now)) value.now) }
    ensures room { OnErr result (IsLong value.now.absolute.count) }
{
    compact_is_layered();
    match formatter.format(value) {
        Ok(number) => Ok(FormattedNumber::Compact(number)),
        Err(refused) => Err(refused),
    }
}

// A compact number with digits of its own.
fn format_digits<'l>(
    formatter: &'l CompactDigitsFormatter<'_>,
    value: &Decimal,
) -> Result<FormattedNumber<'l>, AllocError>
    ensures value { IfOk result
        (λ number. formatted_events number ≡ format_events (digits_format formatter.now) value.now) }
    ensures room { OnErr result (FormatAllocates (digits_format formatter.now) value.now) }
{
    let mut significand = value.try_clone()?;
    match formatter.show(&mut significand) {
        Ok(under) => Ok(FormattedNumber::Digits(FormattedDigits::new(
            &formatter.compact,
            significand,
            under.entry,
        ))),
        Err(refused) => {
            drop(significand);
            Err(refused)
        }
    }
}

// Percents.
fn format_percent<'l>(
    formatter: &'l PercentFormatter<'_>,
    value: &'l Decimal,
) -> FormattedNumber<'l>
    ensures { formatted_events result
        ≡ format_events (unit_tables (percent_format (sign_of formatter.now) (settings_of_percent formatter.now)))
        value.now }
{
    unit_is_layered();
    FormattedNumber::Unit(formatter.format(value))
}

// An amount.
fn format_amount<'l>(
    formatter: &'l CurrencyFormatter<'_>,
    value: &'l Decimal,
) -> FormattedNumber<'l>
    ensures { formatted_events result
        ≡ format_events (unit_tables (currency_format (code_of formatter.now) (currency_settings_of formatter.now)))
        value.now }
{
    unit_is_layered();
    FormattedNumber::Unit(formatter.format(value))
}

// A scientific number.
fn format_scientific<'l>(
    formatter: &'l ScientificFormatter<'_>,
    value: &Decimal,
) -> Result<FormattedNumber<'l>, AllocError>
    requires { CanFormat (scientific_format formatter.now) value.now }
    ensures value { IfOk result
        (λ number. formatted_events number ≡ format_events (scientific_format formatter.now) value.now) }
    ensures room { OnErr result (FormatAllocates (scientific_format formatter.now) value.now) }
{
    scientific_is_layered();
    let mut significand = value.try_clone()?;
    match formatter.show(&mut significand) {
        Ok(exponent) => Ok(FormattedNumber::Scientific(FormattedPower::new(
            &formatter.tables,
            significand,
            exponent,
        ))),
        Err(refused) => {
            drop(significand);
            Err(refused)
        }
    }
}

// What compact text shows for a number.
fn show_compact(
    formatter: &CompactDecimalFormatter<'_>,
    value: &Decimal,
) -> Result<ShownNumber, AllocError>
    requires { CanFormat (compact_tables (compact_tables_of formatter.now)) value.now }
    ensures value { IfOk result (λ shown.
        value_held shown ≡ format_value (compact_tables (compact_tables_of formatter.now)) value.now) }
    ensures room { OnErr result (ShowAllocates (compact_tables (compact_tables_of formatter.now)) value.now) }
{
    let text = formatter.format(value)?;
    let shown = text.value();
    let significand = shown.significand().try_clone()?;
    Ok(ShownNumber::Compact(CompactDecimal::from_significand_and_exponent(
        Decimal::new(value.sign, significand),
        shown.exponent(),
    )))
}

// What compact text with digits of its own shows for a number.
fn show_digits(
    formatter: &CompactDigitsFormatter<'_>,
    value: &Decimal,
) -> Result<ShownNumber, AllocError>
    ensures value { IfOk result
        (λ shown. value_held shown ≡ format_value (digits_format formatter.now) value.now) }
    ensures room { OnErr result (ShowAllocates (digits_format formatter.now) value.now) }
{
    let mut significand = value.try_clone()?;
    match formatter.show(&mut significand) {
        Ok(under) => Ok(ShownNumber::Compact(CompactDecimal::from_significand_and_exponent(
            significand,
            under.exponent,
        ))),
        Err(refused) => {
            drop(significand);
            Err(refused)
        }
    }
}

// What the text of a scientific number shows.
fn show_scientific(
    formatter: &ScientificFormatter<'_>,
    value: &Decimal,
) -> Result<ShownNumber, AllocError>
    requires { CanFormat (scientific_format formatter.now) value.now }
    ensures value { IfOk result
        (λ shown. value_held shown ≡ format_value (scientific_format formatter.now) value.now) }
    ensures room { OnErr result (ShowAllocates (scientific_format formatter.now) value.now) }
{
    let mut significand = value.try_clone()?;
    let Ok(exponent) = formatter.show(&mut significand) else {
        drop(significand);
        return Err(AllocError);
    };
    match FixedInteger::try_from(exponent) {
        Ok(exponent) => Ok(ShownNumber::Scientific(ScientificDecimal::from(significand, exponent))),
        Err(_) => unreachable!(),
    }
}

// A number that is shown as it is.
fn show_as_it_is(value: &Decimal) -> Result<ShownNumber, AllocError>
    ensures value { IfOk result
        (λ shown. value_held shown ≡ compact_value (record { significand = value.now; exponent = 0 })) }
    ensures room { OnErr result (IsLong value.now.absolute.count) }
{
    match value.try_clone() {
        Ok(significand) => Ok(ShownNumber::Compact(CompactDecimal::from_significand_and_exponent(
            significand,
            0,
        ))),
        Err(refused) => Err(refused),
    }
}

// An exact form of a compact number.
fn format_exact_compact<'l>(
    formatter: &'l CompactDecimalFormatter<'_>,
    form: &'l CompactDecimal,
) -> Result<FormattedNumber<'l>, ExactError>
    ensures range { IsErrOf result ExactError.Range
        ↔ ¬ (IsFormInRange (compact_tables (compact_tables_of formatter.now)) form.now) }
    ensures exponent { IsErrOf result ExactError.Exponent
        ↔ (IsFormInRange (compact_tables (compact_tables_of formatter.now)) form.now
        × (exact_shown (compact_tables (compact_tables_of formatter.now)) form.now ≡ None)) }
    ensures parts { IfOk result (λ number.
        exact_format_events (compact_tables (compact_tables_of formatter.now)) form.now
        ≡ Some (formatted_events number)) }
{
    compact_is_layered();
    let significand = form.significand();
    let exponent = form.exponent();
    if !formatter.exponent_in_range(significand, exponent) {
        return Err(ExactError::Range);
    }
    match formatter.format_with_exponent(significand, exponent) {
        Ok(number) => Ok(FormattedNumber::Exact(number)),
        Err(_) => Err(ExactError::Exponent),
    }
}

// The number of a form with the exponent 0.
fn without_exponent(form: &CompactDecimal) -> Result<&Decimal, ExactError>
    ensures value { IfOk result (λ number. number.now ≡ form.now.significand) }
    ensures zero { IfOk result (λ number. form.now.exponent ≡ 0) }
    ensures other { OnErr result (form.now.exponent ≢ 0) }
    ensures exponent { IfErr result (λ error. error ≡ ExactError.Exponent) }
{
    if form.exponent() == 0 {
        Ok(form.significand())
    } else {
        Err(ExactError::Exponent)
    }
}

// What reads percents.
fn read_percents<'a>(
    alloc: Global,
    formatter: &PercentFormatter<'a>,
) -> Result<NumberReader<'a>, AllocError>
    ensures { IfOk result (λ reader. reader
        ≡ reader_of (unit_tables (percent_format (sign_of formatter.now) (settings_of_percent formatter.now)))) }
{
    match formatter.reader(alloc) {
        Ok(reader) => Ok(NumberReader::of_unit(*formatter.decimals(), reader)),
        Err(refused) => Err(refused),
    }
}

// What reads amounts.
fn read_amounts<'a>(
    alloc: Global,
    formatter: &CurrencyFormatter<'a>,
) -> Result<NumberReader<'a>, AllocError>
    ensures { IfOk result (λ reader. reader
        ≡ reader_of
        (unit_tables (currency_format (code_of formatter.now) (currency_settings_of formatter.now)))) }
{
    match formatter.reader(alloc) {
        Ok(reader) => Ok(NumberReader::of_unit(*formatter.decimals(), reader)),
        Err(refused) => Err(refused),
    }
}

impl<'a> NumberFormatter<'a> {
    /// The formatter of amounts: that of `en` and `EUR` writes -1234.5 as `-€1,234.5`. It does not allocate.
    pub fn of_amounts(formatter: &CurrencyFormatter<'a>) -> Self
        ensures { result
            ≡ unit_tables (currency_format (code_of formatter.now) (currency_settings_of formatter.now)) }
    {
        let amounts = CurrencyFormatter::from_parts(
            *formatter.decimals(),
            formatter.pattern(),
            formatter.symbol(),
            formatter.code(),
            formatter.fractions(),
        );
        NumberFormatter {
            kind: FormatterKind::Currency(amounts),
        }
    }

    /// The formatter of the format that it is made of: that of percents of `en` is the one of percents. It does not
    /// allocate.
    pub fn kind(&self) -> &FormatterKind<'a>
        ensures { format_of result.now ≡ self.now }
    {
        &self.kind
    }

    /// The digits of the currency, where it writes amounts: two of `EUR`. It does not allocate.
    pub fn fractions(&self) -> Option<FractionInfo>
        ensures { result ≡ fractions_in self.now }
    {
        match &self.kind {
            FormatterKind::Plain(_)
            | FormatterKind::Compact(_)
            | FormatterKind::CompactDigits(_)
            | FormatterKind::Percent(_)
            | FormatterKind::Scientific(_) => None,
            FormatterKind::Currency(formatter) => Some(formatter.fractions()),
        }
    }

    /// Whether the number can be formatted: always but by compact formatters, which don't write 32,768 nines in English,
    /// as what they are rounded to, 10^32768, is no decimal; those with digits of their own, and those of scientific
    /// numbers, don't write a number with a digit below its exponent, as 1000 and 10^-32768 together.
    ///
    /// It is the condition of `format` and `shown`. It does not allocate.
    pub fn can_format(&self, value: &Decimal) -> bool
        ensures { IsTrue result ↔ CanFormat self.now value.now }
    {
        match &self.kind {
            FormatterKind::Compact(formatter) => formatter.can_format(value),
            FormatterKind::CompactDigits(formatter) => formatter.can_show(value),
            FormatterKind::Scientific(formatter) => formatter.can_show(value),
            FormatterKind::Plain(_) | FormatterKind::Percent(_) | FormatterKind::Currency(_) => {
                true
            }
        }
    }

    /// The number as this formatter writes it, with its parts: -1234.5 as `-1,234.5`, `-1.2K`, `-1,234.5%`, `-€1,234.5` or
    /// `-1.2345E3` in English.
    ///
    /// The condition is `can_format`. It is written as it is given, with its digits, but for compact and scientific text.
    /// It allocates where a compact or scientific number has more than sixteen digits, from the first to the last one that
    /// is not zero, and it may where digits of its own are rounded to multiples of 25. `AllocError`: out of memory, only
    /// there.
    ///
    /// Source: UTS 35, part 3 (numbers).
    pub fn format<'l>(&'l self, value: &'l Decimal) -> Result<FormattedNumber<'l>, AllocError>
        requires { CanFormat self.now value.now }
        ensures text { IfOk result (λ number. text_of (formatted_events number) ≡ format_text self.now value.now) }
        ensures parts { IfOk result (λ number. formatted_events number ≡ format_events self.now value.now) }
        ensures room { OnErr result (FormatAllocates self.now value.now) }
    {
        format_is_text();
        match &self.kind {
            FormatterKind::Plain(formatter) => Ok(format_plain(formatter, value)),
            FormatterKind::Compact(formatter) => format_compact(formatter, value),
            FormatterKind::CompactDigits(formatter) => format_digits(formatter, value),
            FormatterKind::Percent(formatter) => Ok(format_percent(formatter, value)),
            FormatterKind::Currency(formatter) => Ok(format_amount(formatter, value)),
            FormatterKind::Scientific(formatter) => format_scientific(formatter, value),
        }
    }

    /// What the text of the number shows: of -1172700 in English -1.2 with the exponent 6 by a compact formatter, the
    /// significand and the exponent as it is shown by one of scientific numbers, and the number itself with the exponent 0
    /// by any other.
    ///
    /// The condition is `can_format`. It allocates where the number, or what is shown for it, has more than sixteen digits,
    /// from the first to the last one that is not zero, and may where `format` may. `AllocError`: out of memory, only
    /// there.
    pub fn shown(&self, value: &Decimal) -> Result<ShownNumber, AllocError>
        requires { CanFormat self.now value.now }
        ensures value { IfOk result (λ shown. value_held shown ≡ format_value self.now value.now) }
        ensures room { OnErr result (ShowAllocates self.now value.now) }
    {
        match &self.kind {
            FormatterKind::Compact(formatter) => show_compact(formatter, value),
            FormatterKind::CompactDigits(formatter) => show_digits(formatter, value),
            FormatterKind::Scientific(formatter) => show_scientific(formatter, value),
            FormatterKind::Plain(_) | FormatterKind::Percent(_) | FormatterKind::Currency(_) => {
                show_as_it_is(value)
            }
        }
    }

    /// A number with an exponent that the caller chose, with its parts: of -1.20 and 6 `-1.20M` in English.
    ///
    /// The digits are written as they are. A format without compact patterns has only the exponent 0, and one of scientific
    /// numbers has none. `Range`: by a compact formatter, where the magnitude of both together is above 32767. `Exponent`:
    /// the format has another exponent for this magnitude, as 3 for that of 1.2 and 5. It does not allocate.
    pub fn format_exact<'l>(
        &'l self,
        form: &'l CompactDecimal,
    ) -> Result<FormattedNumber<'l>, ExactError>
        ensures range { IsErrOf result ExactError.Range ↔ ¬ (IsFormInRange self.now form.now) }
        ensures exponent { IsErrOf result ExactError.Exponent
            ↔ (IsFormInRange self.now form.now × (exact_shown self.now form.now ≡ None)) }
        ensures parts { IfOk result (λ number. exact_format_events self.now form.now ≡ Some (formatted_events number)) }
    {
        match &self.kind {
            FormatterKind::Plain(formatter) => Ok(format_plain(formatter, without_exponent(form)?)),
            FormatterKind::Compact(formatter) => format_exact_compact(formatter, form),
            FormatterKind::CompactDigits(formatter) => format_exact_compact(
                &formatter.compact,
                form,
            ),
            FormatterKind::Percent(formatter) => {
                Ok(format_percent(formatter, without_exponent(form)?))
            }
            FormatterKind::Currency(formatter) => {
                Ok(format_amount(formatter, without_exponent(form)?))
            }
            FormatterKind::Scientific(_) => Err(ExactError::Exponent),
        }
    }

    /// What reads what this formatter writes: that of `en` and `EUR` reads `€1.50` as 1.50, that of scientific numbers
    /// `1.2E6` as 1200000, and those of compact numbers read nothing. It borrows only what the formatter borrows, so both
    /// can be kept beside each other.
    ///
    /// It puts the affixes of a unit together: it allocates for each one that is not empty, and without a unit it always
    /// succeeds. `AllocError`: out of memory.
    pub fn reader(&self, alloc: Global) -> Result<NumberReader<'a>, AllocError>
        ensures succeeds { HasNoUnit self.now → IsOk result }
        ensures value { IfOk result (λ reader. reader ≡ reader_of self.now) }
    {
        match &self.kind {
            FormatterKind::Plain(formatter) => Ok(NumberReader::of_plain(*formatter)),
            FormatterKind::Compact(_) | FormatterKind::CompactDigits(_) => {
                Ok(NumberReader::of_nothing())
            }
            FormatterKind::Percent(formatter) => read_percents(alloc, formatter),
            FormatterKind::Currency(formatter) => read_amounts(alloc, formatter),
            FormatterKind::Scientific(formatter) => Ok(NumberReader::of_scientific(formatter)),
        }
    }

    /// What reads what people type of the numbers that this formatter writes, and, where one is given, also by a second
    /// formatter, as that of `ar-EG-u-nu-latn` beside that of `ar-EG`: that of `en` and `EUR` reads `€1.5`, `1.5` and
    /// `1.5 EUR` as 1.5, and those of compact and of scientific numbers read nothing.
    ///
    /// A second formatter of another kind counts for nothing. It allocates for each affix, and for each folded text; without
    /// a unit it always succeeds. `AllocError`: out of memory.
    pub fn lenient_reader(
        &self,
        alloc: Global,
        second: Option<&NumberFormatter<'a>>,
    ) -> Result<LenientNumberReader<'a>, AllocError>
        ensures succeeds { HasNoUnit self.now → IsOk result }
        ensures value { IfOk result
            (λ reader. reader ≡ typed_of self.now (option_map (λ f. f.now) second.entry)) }
    {
        match &self.kind {
            FormatterKind::Plain(formatter) => {
                Ok(LenientNumberReader::of_plain(alloc, formatter, second))
            }
            FormatterKind::Compact(_)
            | FormatterKind::CompactDigits(_)
            | FormatterKind::Scientific(_) => Ok(LenientNumberReader::of_nothing()),
            FormatterKind::Percent(formatter) => {
                LenientNumberReader::of_percent(alloc, formatter, second)
            }
            FormatterKind::Currency(formatter) => {
                LenientNumberReader::of_currency(alloc, formatter, second)
            }
        }
    }
}
