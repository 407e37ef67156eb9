//! The formatters of scientific numbers that tables have.

ghost use Rattle.std.specs.Prelude.{◌≡◌, Some};
ghost use Rattle.std.specs.Result.{result_map_both};
ghost use Rattle.icu_decimal.specs.HeldTables.{tables_of};
ghost use Rattle.locale_numbers_book.specs.FoundFormats.{mapped, scientific_found, scientific_of, with_exponents, with_signs};
ghost use Rattle.locale_numbers_book.specs.TagFormatters.{found_plain, signs_found_in};
ghost use Rattle.locale_numbers_formatter.specs.HeldScientific.{scientific_format};

use crate::format_finding::find_plain;
use crate::tables::Tables;
use icu_decimal::options::GroupingStrategy;
use icu_decimal::provider::DataError;
use icu_decimal::{DecimalFormatter, DecimalFormatterPreferences};
use icu_decimal_scientific::ScientificTables;
use locale_numbers_formats::{NumberOptions, NumberUnit, ScientificStyle};
use locale_numbers_formatter::{NumberFormatter, ScientificFormatter};
use locale_numbers_signs::{NumberSigns, load_number_signs};

// The signs for preferences.
fn find_signs<'a, T: Tables>(
    tables: &'a T,
    preferences: DecimalFormatterPreferences,
) -> Result<&'a NumberSigns, DataError>
    ensures { result_map_both (λ signs. signs.now) (λ error. error) result
        ≡ signs_found_in (T.book tables.now) preferences }
{
    load_number_signs(tables, &preferences)
}

// The formatter of scientific numbers by a plain one and signs, of which the text is before exponents.
fn with_exponents<'a>(
    plain: &DecimalFormatter<'a>,
    signs: &'a NumberSigns,
    style: ScientificStyle,
    options: NumberOptions,
) -> ScientificFormatter<'a>
    ensures { scientific_format result ≡ scientific_of style options (with_exponents (tables_of plain.now) signs.now) }
{
    let alloc = *signs.exponent.allocator();
    let tables = ScientificTables::new(plain.tables(), signs.exponent.as_str());
    ScientificFormatter::new(alloc, tables, style, options)
}

// The formatter of scientific numbers without a unit.
fn find_exponents<'a, T: Tables>(
    tables: &'a T,
    preferences: DecimalFormatterPreferences,
    style: ScientificStyle,
    options: NumberOptions,
    grouping: GroupingStrategy,
) -> Result<NumberFormatter<'a>, DataError>
    ensures { result ≡ mapped (scientific_of style options) (with_signs
        (found_plain (T.book tables.now) preferences (Some grouping)) (signs_found_in (T.book tables.now) preferences)) }
{
    match find_plain(tables, preferences, grouping) {
        Ok(plain) => match find_signs(tables, preferences) {
            Ok(signs) => Ok(NumberFormatter::from(with_exponents(&plain, signs, style, options))),
            Err(error) => Err(error),
        },
        Err(error) => Err(error),
    }
}

// The formatter of scientific numbers, of which none has a unit.
#[inline(never)]
pub(crate) fn find_scientific<'a, T: Tables>(
    tables: &'a T,
    preferences: DecimalFormatterPreferences,
    style: ScientificStyle,
    options: NumberOptions,
    unit: NumberUnit,
    grouping: GroupingStrategy,
) -> Result<NumberFormatter<'a>, DataError>
    ensures { result ≡ mapped (scientific_of style options)
        (scientific_found unit (T.book tables.now) preferences grouping) }
{
    match unit {
        NumberUnit::None => find_exponents(tables, preferences, style, options, grouping),
        NumberUnit::Percent(_) | NumberUnit::Currency(_) => Err(DataError::IdentifierNotFound),
    }
}
