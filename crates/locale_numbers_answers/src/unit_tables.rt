//! What texts of percents and of amounts are put with directly.

ghost use Rattle.std.specs.Prelude.{◌≡◌, true, IfSome, None, Some};
ghost use Rattle.icu_decimal.specs.BorrowedTables.{borrowed_tables};
ghost use Rattle.icu_decimal_direct.specs.HeldUnits.{unit_texts};
ghost use Rattle.icu_dimension.specs.HeldFormatters.{code_of, currency_settings_of, settings_of_percent, sign_of};
ghost use Rattle.icu_dimension.specs.UnitReading.{pair_for};
ghost use Rattle.locale_numbers_formatter.specs.FormatReading.{reader_of, reads_between};
ghost use Rattle.locale_numbers_formatter.specs.FormatText.{fractions_in, unit_tables};
ghost use Rattle.locale_numbers_formatter.specs.HeldFormats.{currency_format, percent_format};
ghost use Rattle.locale_numbers_answers.specs.UnitAnswer.{texts_read};
ghost use Rattle.locale_numbers_answers.specs.UnitFractions.{has_digits_of, is_one};

use fixed_decimal::Sign;
use icu_decimal::DecimalTables;
use icu_decimal_direct::{TextTables, UnitAffixTexts, UnitTextTables};
use icu_dimension::{CurrencyFormatter, FractionIncrement, PercentFormatter, UnitReader};
use locale_numbers_formatter::{FormatterKind, NumberFormatter};
use std::alloc::Global;

// How many fraction digits of percents are put.
const MOST: u8 = 32;

// The affixes of a sign, as a reader has put them together.
fn affix_texts<'l>(reader: &'l UnitReader<'_>, sign: Sign) -> UnitAffixTexts<'l>
    ensures before { result.before.now ≡ (pair_for reader.now.pairs sign).before }
    ensures after { result.after.now ≡ (pair_for reader.now.pairs sign).after }
{
    let affixes = reader.affixes(sign);
    UnitAffixTexts {
        before: affixes.before.as_str(),
        after: affixes.after.as_str(),
    }
}

// What texts are put with between the affixes of a reader, with so many fraction digits at least and at most.
fn with_affixes<'a>(
    decimals: &DecimalTables<'a>,
    reader: &UnitReader<'_>,
    least: u8,
    most: u8,
) -> Option<UnitTextTables<'a>>
    requires { borrowed_tables decimals.now ≡ reader.now.tables }
    ensures known { IfSome result (λ tables. texts_read (unit_texts tables) ≡ reader.now) }
    ensures least { IfSome result (λ tables. (unit_texts tables).least ≡ least) }
    ensures most { IfSome result (λ tables. (unit_texts tables).most ≡ most) }
{
    match TextTables::of(decimals.symbols(), decimals.digits(), decimals.strategy()) {
        Some(tables) => UnitTextTables::of(
            tables,
            affix_texts(reader, Sign::None),
            affix_texts(reader, Sign::Negative),
            affix_texts(reader, Sign::Positive),
            least,
            most,
        ),
        None => None,
    }
}

// What texts of percents are put with: their affixes are put together once.
fn of_percents<'a>(alloc: Global, formatter: &PercentFormatter<'a>) -> Option<UnitTextTables<'a>>
    ensures known { IfSome result (λ tables.
        reader_of (unit_tables (percent_format (sign_of formatter.now) (settings_of_percent formatter.now)))
        ≡ Some (reads_between (texts_read (unit_texts tables)))) }
    ensures digits { IfSome result (λ tables. has_digits_of None (unit_texts tables) ≡ true) }
{
    match formatter.reader(alloc) {
        Ok(reader) => with_affixes(formatter.decimals(), &reader, 0, MOST),
        Err(_) => None,
    }
}

// Whether each multiple of the last digit is an amount.
fn is_one(increment: FractionIncrement) -> bool
    ensures { result ≡ is_one increment }
{
    match increment {
        FractionIncrement::MultiplesOf1 => true,
        FractionIncrement::MultiplesOf2
        | FractionIncrement::MultiplesOf5
        | FractionIncrement::MultiplesOf10
        | FractionIncrement::MultiplesOf20
        | FractionIncrement::MultiplesOf25
        | FractionIncrement::MultiplesOf50 => false,
    }
}

// What texts of amounts are put with, where each multiple of the last digit of the currency is an amount.
fn of_amounts<'a>(alloc: Global, formatter: &CurrencyFormatter<'a>) -> Option<UnitTextTables<'a>>
    ensures known { IfSome result (λ tables.
        reader_of (unit_tables (currency_format (code_of formatter.now) (currency_settings_of formatter.now)))
        ≡ Some (reads_between (texts_read (unit_texts tables)))) }
    ensures digits { IfSome result (λ tables.
        has_digits_of (Some (currency_settings_of formatter.now).fractions) (unit_texts tables) ≡ true) }
{
    let fraction = formatter.fractions().standard;
    if !is_one(fraction.increment) {
        return None;
    }
    match formatter.reader(alloc) {
        Ok(reader) => with_affixes(
            formatter.decimals(),
            &reader,
            fraction.digits,
            fraction.digits,
        ),
        Err(_) => None,
    }
}

/// What texts with a unit are put with directly, of a formatter of percents or of amounts: those of `en` and euros put
/// the digits of -1234.5 as `-€1,234.50`.
///
/// `None`: its numbers have no unit, `TextTables::of` has no tables of its symbols and digits, an affix has more than 32
/// bytes, the currency has more than 32 digits, or not each multiple of the last one is an amount; or memory is refused,
/// since it allocates for each affix.
pub fn unit_text_tables<'a>(
    alloc: Global,
    formatter: &NumberFormatter<'a>,
) -> Option<UnitTextTables<'a>>
    ensures known { IfSome result
        (λ tables. reader_of formatter.now ≡ Some (reads_between (texts_read (unit_texts tables)))) }
    ensures digits { IfSome result (λ tables. has_digits_of (fractions_in formatter.now) (unit_texts tables) ≡ true) }
{
    match formatter.kind() {
        FormatterKind::Percent(formatter) => of_percents(alloc, formatter),
        FormatterKind::Currency(formatter) => of_amounts(alloc, formatter),
        FormatterKind::Plain(_)
        | FormatterKind::Compact(_)
        | FormatterKind::CompactDigits(_)
        | FormatterKind::Scientific(_) => None,
    }
}
