//! The formatters that tables have for the shape of a format.

ghost use Rattle.std.specs.Prelude.{◌≡◌, Some, IfOk, codes};
ghost use Rattle.std.specs.Option.{option_and_then};
ghost use Rattle.std.specs.Result.{result_map_both, result_ok};
ghost use Rattle.icu_decimal.specs.HeldCompact.{compact_tables_of};
ghost use Rattle.icu_decimal.specs.HeldTables.{tables_of};
ghost use Rattle.icu_dimension.specs.HeldFormatters.{code_of, currency_settings_of, settings_of_percent, sign_of};
ghost use Rattle.locale_numbers_book.specs.FoundFormats.{amount_options, amounts_by, both_found, compact_found, found_for, in_ascii, in_latin, mapped, percent_options, second_for, standard_found};
ghost use Rattle.locale_numbers_book.specs.TagFormatters.{currency_found_in, found_beside, found_plain, patterns_under, percent_found_in};
ghost use Rattle.locale_numbers_formatter.specs.FormatText.{compact_tables, digits_tables, unit_tables};
ghost use Rattle.locale_numbers_formatter.specs.HeldFormats.{currency_format};

use crate::scientific_finding::find_scientific;
use crate::tables::Tables;
use icu_decimal::options::{
    CompactDecimalFormatterOptions, DecimalFormatterOptions, GroupingStrategy,
};
use icu_decimal::provider::DataError;
use icu_decimal::{CompactDecimalFormatter, DecimalFormatter, DecimalFormatterPreferences};
use icu_dimension::{
    CurrencyFormatter, CurrencyFormatterOptions, PercentFormatter, PercentFormatterOptions,
    PercentSign,
};
use icu_locale_core::preferences::extensions::unicode::keywords::NumberingSystem;
use icu_locale_core::subtags::Subtag;
use locale_numbers_formats::{
    CompactWidth, CurrencyUnit, Notation, NumberOptions, NumberShape, NumberUnit,
};
use locale_numbers_formatter::{CompactDigitsFormatter, FormatterKind, NumberFormatter};

// The formatter of plain numbers.
pub(crate) fn find_plain<'a, T: Tables>(
    tables: &'a T,
    preferences: DecimalFormatterPreferences,
    grouping: GroupingStrategy,
) -> Result<DecimalFormatter<'a>, DataError>
    ensures { result_map_both tables_of (λ error. error) result
        ≡ found_plain (T.book tables.now) preferences (Some grouping) }
{
    DecimalFormatter::try_new_unstable(tables, preferences, DecimalFormatterOptions::from(grouping))
}

// The formatter of compact numbers with the patterns of a width.
fn find_patterns<'a, T: Tables>(
    tables: &'a T,
    preferences: DecimalFormatterPreferences,
    width: CompactWidth,
    grouping: GroupingStrategy,
) -> Result<CompactDecimalFormatter<'a>, DataError>
    ensures { result_map_both compact_tables_of (λ error. error) result
        ≡ found_beside (patterns_under width (T.book tables.now)) (T.book tables.now) preferences (Some grouping) }
{
    let options = CompactDecimalFormatterOptions::from(grouping);
    match width {
        CompactWidth::Short => {
            CompactDecimalFormatter::try_new_short_unstable(tables, preferences, options)
        }
        CompactWidth::Long => {
            CompactDecimalFormatter::try_new_long_unstable(tables, preferences, options)
        }
    }
}

// The formatter of percents with a sign.
fn find_percents<'a, T: Tables>(
    tables: &'a T,
    preferences: DecimalFormatterPreferences,
    sign: PercentSign,
    grouping: GroupingStrategy,
) -> Result<PercentFormatter<'a>, DataError>
    ensures found { result_map_both settings_of_percent (λ error. error) result
        ≡ percent_found_in (T.book tables.now) preferences (percent_options sign grouping) }
    ensures sign { IfOk result (λ formatter. sign_of formatter ≡ sign) }
{
    PercentFormatter::try_new_unstable(
        tables,
        preferences,
        PercentFormatterOptions {
            grouping_strategy: Some(grouping),
            sign,
        },
    )
}

// How amounts are written, as their unit says.
fn options_of(currency: CurrencyUnit, grouping: GroupingStrategy) -> CurrencyFormatterOptions
    ensures { result ≡ amount_options currency grouping }
{
    CurrencyFormatterOptions {
        style: currency.style,
        width: currency.width,
        grouping_strategy: Some(grouping),
    }
}

// The formatter of amounts of a currency.
fn find_amounts<'a, T: Tables>(
    tables: &'a T,
    preferences: DecimalFormatterPreferences,
    currency: CurrencyUnit,
    grouping: GroupingStrategy,
) -> Result<CurrencyFormatter<'a>, DataError>
    ensures found { result_map_both currency_settings_of (λ error. error) result
        ≡ currency_found_in (T.book tables.now) preferences currency.code (amount_options currency grouping) }
    ensures code { IfOk result (λ formatter. code_of formatter ≡ currency.code) }
{
    CurrencyFormatter::try_new_unstable(
        tables,
        preferences,
        currency.code,
        options_of(currency, grouping),
    )
}

// The formatter of numbers with all digits. It is apart, as is that of compact numbers, so that each takes room on the
// stack where it is made, and not beside the other.
#[inline(never)]
fn find_standard<'a, T: Tables>(
    tables: &'a T,
    preferences: DecimalFormatterPreferences,
    unit: NumberUnit,
    grouping: GroupingStrategy,
) -> Result<NumberFormatter<'a>, DataError>
    ensures { result ≡ standard_found unit (T.book tables.now) preferences grouping }
{
    match unit {
        NumberUnit::None => match find_plain(tables, preferences, grouping) {
            Ok(formatter) => Ok(NumberFormatter::from(formatter)),
            Err(error) => Err(error),
        },
        NumberUnit::Percent(sign) => match find_percents(tables, preferences, sign, grouping) {
            Ok(formatter) => Ok(NumberFormatter::from(formatter)),
            Err(error) => Err(error),
        },
        NumberUnit::Currency(currency) => {
            match find_amounts(tables, preferences, currency, grouping) {
                Ok(formatter) => Ok(NumberFormatter::of_amounts(&formatter)),
                Err(error) => Err(error),
            }
        }
    }
}

// The formatter of compact numbers, of which none has a unit.
fn find_compact<'a, T: Tables>(
    tables: &'a T,
    preferences: DecimalFormatterPreferences,
    width: CompactWidth,
    unit: NumberUnit,
    grouping: GroupingStrategy,
) -> Result<CompactDecimalFormatter<'a>, DataError>
    ensures { result_map_both compact_tables_of (λ error. error) result
        ≡ compact_found width unit (T.book tables.now) preferences grouping }
{
    match unit {
        NumberUnit::None => find_patterns(tables, preferences, width, grouping),
        NumberUnit::Percent(_) | NumberUnit::Currency(_) => Err(DataError::IdentifierNotFound),
    }
}

// The same, as a formatter of numbers.
#[inline(never)]
fn find_short_or_long<'a, T: Tables>(
    tables: &'a T,
    preferences: DecimalFormatterPreferences,
    width: CompactWidth,
    unit: NumberUnit,
    grouping: GroupingStrategy,
) -> Result<NumberFormatter<'a>, DataError>
    ensures { result
        ≡ mapped compact_tables (compact_found width unit (T.book tables.now) preferences grouping) }
{
    match find_compact(tables, preferences, width, unit, grouping) {
        Ok(formatter) => Ok(NumberFormatter::from(formatter)),
        Err(error) => Err(error),
    }
}

// The same, with digits of their own.
#[inline(never)]
fn find_with_digits<'a, T: Tables>(
    tables: &'a T,
    preferences: DecimalFormatterPreferences,
    width: CompactWidth,
    options: NumberOptions,
    unit: NumberUnit,
    grouping: GroupingStrategy,
) -> Result<NumberFormatter<'a>, DataError>
    ensures { result ≡ mapped (λ compact. digits_tables compact options)
        (compact_found width unit (T.book tables.now) preferences grouping) }
{
    match find_compact(tables, preferences, width, unit, grouping) {
        Ok(formatter) => Ok(NumberFormatter::from(CompactDigitsFormatter::new(formatter, options))),
        Err(error) => Err(error),
    }
}

/// The formatter of a shape for preferences, of the tables of a book: of `SAMPLE_UNITS_BOOK` that of `de-CH` and amounts of
/// `CHF` writes -5.00 as `CHF-5.00`.
///
/// It borrows its tables. `IdentifierNotFound`: one of the tables is not there, of scientific numbers the signs among them,
/// and so where a compact or a scientific number would have a unit. It does not allocate.
pub fn find_formatter<'a, T: Tables>(
    tables: &'a T,
    preferences: DecimalFormatterPreferences,
    shape: &NumberShape,
) -> Result<NumberFormatter<'a>, DataError>
    ensures { result ≡ found_for shape.now (T.book tables.now) preferences }
{
    match shape.notation {
        Notation::Standard => find_standard(tables, preferences, shape.unit, shape.grouping),
        Notation::Compact(width) => {
            find_short_or_long(tables, preferences, width, shape.unit, shape.grouping)
        }
        Notation::CompactDigits(width, options) => {
            find_with_digits(
                tables,
                preferences,
                width,
                options,
                shape.unit,
                shape.grouping,
            )
        }
        Notation::Scientific(style, options) => {
            find_scientific(
                tables,
                preferences,
                style,
                options,
                shape.unit,
                shape.grouping,
            )
        }
    }
}

// The numbering system of the digits of ASCII.
fn latin() -> NumberingSystem
    ensures { result ≡ codes "latn" }
{
    match Subtag::try_from_str("latn") {
        Ok(subtag) => match NumberingSystem::try_from(subtag) {
            Ok(system) => system,
            Err(_) => unreachable!(),
        },
        Err(_) => unreachable!(),
    }
}

// The same preferences, with that system.
fn in_latin(preferences: DecimalFormatterPreferences) -> DecimalFormatterPreferences
    ensures { result ≡ in_latin preferences }
{
    DecimalFormatterPreferences {
        locale_preferences: preferences.locale_preferences,
        numbering_system: Some(latin()),
    }
}

// That for the same preferences with that system.
fn find_latin<'a, T: Tables>(
    tables: &'a T,
    preferences: DecimalFormatterPreferences,
    shape: &NumberShape,
) -> Option<NumberFormatter<'a>>
    ensures { result ≡ in_ascii shape.now (T.book tables.now) preferences }
{
    match find_formatter(tables, in_latin(preferences), shape) {
        Ok(formatter) => Some(formatter),
        Err(_) => None,
    }
}

// A formatter of amounts by the symbols of a plain one, where its own are others.
fn with_symbols_of<'a>(
    plain: &DecimalFormatter<'a>,
    amounts: &CurrencyFormatter<'a>,
) -> Option<NumberFormatter<'a>>
    ensures { result ≡ amounts_by (tables_of plain.now)
        (unit_tables (currency_format (code_of amounts.now) (currency_settings_of amounts.now))) }
{
    if plain.symbols() == amounts.decimals().symbols() {
        return None;
    }
    let plainly = CurrencyFormatter::from_parts(
        *plain.tables(),
        amounts.pattern(),
        amounts.symbol(),
        amounts.code(),
        amounts.fractions(),
    );
    Some(NumberFormatter::of_amounts(&plainly))
}

// A formatter by the symbols of a plain one, where it writes amounts and its own are others.
fn amounts_by<'a>(
    plain: &DecimalFormatter<'a>,
    formatter: &NumberFormatter<'a>,
) -> Option<NumberFormatter<'a>>
    ensures { result ≡ amounts_by (tables_of plain.now) formatter.now }
{
    match formatter.kind() {
        FormatterKind::Plain(_)
        | FormatterKind::Compact(_)
        | FormatterKind::CompactDigits(_)
        | FormatterKind::Scientific(_)
        | FormatterKind::Percent(_) => None,
        FormatterKind::Currency(amounts) => with_symbols_of(plain, amounts),
    }
}

// A formatter by the symbols that plain numbers of the same preferences are written with, where it writes amounts and its
// own are others.
fn plainly_written<'a, T: Tables>(
    tables: &'a T,
    preferences: DecimalFormatterPreferences,
    grouping: GroupingStrategy,
    formatter: &NumberFormatter<'a>,
) -> Option<NumberFormatter<'a>>
    ensures { result ≡ option_and_then (λ plain. amounts_by plain formatter.now)
        (result_ok (found_plain (T.book tables.now) preferences (Some grouping))) }
{
    match find_plain(tables, preferences, grouping) {
        Ok(plain) => amounts_by(&plain, formatter),
        Err(_) => None,
    }
}

/// Beside the formatter of a shape for preferences, a second one that what people type is read by too:
///
/// - where the digits of the first are others than those of ASCII, that for the same preferences with the numbering
///   system `latn`: beside that of `ar-EG`, whose digits are `٠` to `٩`, that of `ar-EG-u-nu-latn`;
/// - else beside amounts whose symbols are others than those of plain numbers, that of the same amounts with these: in
///   `de-AT` the first writes 1234.5 in `EUR` as `€ 1.234,5`, and the second as `€ 1 234,5`, as numbers are written there.
///
/// `None`: neither is so, or one of the tables is not there. It borrows its tables, and does not allocate.
pub fn find_second<'a, T: Tables>(
    tables: &'a T,
    preferences: DecimalFormatterPreferences,
    shape: &NumberShape,
    formatter: &NumberFormatter<'a>,
) -> Option<NumberFormatter<'a>>
    ensures { result ≡ second_for shape.now (T.book tables.now) preferences formatter.now }
{
    if formatter.has_ascii_digits() {
        plainly_written(tables, preferences, shape.grouping, formatter)
    } else {
        find_latin(tables, preferences, shape)
    }
}

// The formatter of a shape, and the second beside it.
pub(crate) fn find_both<'a, T: Tables>(
    tables: &'a T,
    preferences: DecimalFormatterPreferences,
    shape: &NumberShape,
) -> Result<(NumberFormatter<'a>, Option<NumberFormatter<'a>>), DataError>
    ensures { result ≡ both_found shape.now (T.book tables.now) preferences }
{
    match find_formatter(tables, preferences, shape) {
        Ok(formatter) => {
            let second = find_second(tables, preferences, shape, &formatter);
            Ok((formatter, second))
        }
        Err(error) => Err(error),
    }
}
