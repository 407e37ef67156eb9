//! The formatters of numbers with words that preferences find.

ghost use Rattle.std.specs.Prelude.{◌≡◌, IfOk, IfSome, Some, option_map};
ghost use Rattle.std.specs.Option.{option_copied};
ghost use Rattle.std.specs.Result.{result_ok};
ghost use Rattle.icu_decimal.specs.HeldTables.{tables_of};
ghost use Rattle.icu_dimension.specs.HeldFormatters.{currency_settings_of};
ghost use Rattle.locale_numbers_book.specs.TagFormatters.{currency_found_in, found_plain};
ghost use Rattle.locale_numbers_word_book.specs.WordFormats.{amount_options, currency_format_in, rules_in, unit_format_in};

use crate::found_words::{find_currency_words, find_unit_words};
use crate::word_book::WordBook;
use crate::word_formatter::WordFormatter;
use icu_decimal::options::{DecimalFormatterOptions, GroupingStrategy};
use icu_decimal::plurals::PluralRules;
use icu_decimal::{DecimalFormatter, DecimalFormatterPreferences};
use icu_dimension::{
    CurrencyCode, CurrencyFormatter, CurrencyFormatterOptions, CurrencyStyle, CurrencyWidth,
};
use icu_dimension_words::WordKind;
use icu_plurals::PluralRuleType;
use locale_numbers_book::{Tables, find_plural_rules};
use locale_numbers_words::UnitWidth;
use std::alloc::{AllocError, Global};

// The formatter of plain numbers.
fn find_decimals<'a, T: Tables>(
    tables: &'a T,
    preferences: &DecimalFormatterPreferences,
    grouping: GroupingStrategy,
) -> Option<DecimalFormatter<'a>>
    ensures { option_map tables_of result ≡ result_ok (found_plain (T.book tables.now) preferences.now (Some grouping)) }
{
    let options = DecimalFormatterOptions::from(grouping);
    match DecimalFormatter::try_new_unstable(tables, *preferences, options) {
        Ok(formatter) => Some(formatter),
        Err(_) => None,
    }
}

// How amounts are written whose tables a name has.
fn amount_options(grouping: GroupingStrategy) -> CurrencyFormatterOptions
    ensures { result ≡ amount_options grouping }
{
    CurrencyFormatterOptions {
        style: CurrencyStyle::Standard,
        width: CurrencyWidth::Short,
        grouping_strategy: Some(grouping),
    }
}

// The formatter of amounts of a currency.
fn find_amounts<'a, T: Tables>(
    tables: &'a T,
    preferences: &DecimalFormatterPreferences,
    code: CurrencyCode,
    grouping: GroupingStrategy,
) -> Option<CurrencyFormatter<'a>>
    ensures { option_map currency_settings_of result
        ≡ result_ok (currency_found_in (T.book tables.now) preferences.now code (amount_options grouping)) }
{
    match CurrencyFormatter::try_new_unstable(
        tables,
        *preferences,
        code,
        amount_options(grouping),
    ) {
        Ok(formatter) => Some(formatter),
        Err(_) => None,
    }
}

// The cardinal rules.
fn find_rules<'a, T: Tables>(
    tables: &'a T,
    preferences: &DecimalFormatterPreferences,
) -> Option<&'a PluralRules>
    ensures { option_copied result ≡ rules_in (T.book tables.now) preferences.now }
{
    match find_plural_rules(tables, *preferences, PluralRuleType::Cardinal) {
        Some(found) => Some(found.rules),
        None => None,
    }
}

/// The formatter of numbers with a unit of measurement that preferences ask for, of the tables of a book and of words: of
/// `en` and `kilometer`, long, that which writes 5 as `5 kilometers`.
///
/// It borrows the tables, and owns its words. `None`: there are no symbols, no digits, no plural rules or no words of it.
/// It allocates. `AllocError`: out of memory.
pub fn find_unit_formatter<'a, T: Tables>(
    alloc: Global,
    words: &WordBook,
    tables: &'a T,
    preferences: &DecimalFormatterPreferences,
    width: UnitWidth,
    unit: &str,
    grouping: GroupingStrategy,
) -> Result<Option<WordFormatter<'a>>, AllocError>
    ensures { IfOk result (λ found. found
        ≡ unit_format_in words.now (T.book tables.now) preferences.now width unit.now grouping) }
{
    let Some(decimals) = find_decimals(tables, preferences, grouping) else {
        return Ok(None);
    };
    let Some(rules) = find_rules(tables, preferences) else {
        return Ok(None);
    };
    match find_unit_words(alloc, words, tables, preferences, width, unit) {
        Ok(Some(found)) => Ok(Some(WordFormatter::new(
            decimals.tables(),
            rules,
            found,
            WordKind::Unit,
            None,
        ))),
        Ok(None) => Ok(None),
        Err(refused) => Err(refused),
    }
}

/// The formatter of amounts of a currency with its name that preferences ask for, of the tables of a book and of words: of
/// `en` and `USD` that which writes 5.00 as `5.00 US dollars`.
///
/// It has the symbols and the digits with which amounts of the currency are written, without its symbol. `None`: there are
/// no symbols, no digits, no patterns of amounts, no plural rules, or no name patterns of the language. It allocates.
/// `AllocError`: out of memory.
pub fn find_currency_formatter<'a, T: Tables>(
    alloc: Global,
    words: &WordBook,
    tables: &'a T,
    preferences: &DecimalFormatterPreferences,
    code: CurrencyCode,
    grouping: GroupingStrategy,
) -> Result<Option<WordFormatter<'a>>, AllocError>
    ensures { IfOk result (λ found. found
        ≡ currency_format_in words.now (T.book tables.now) preferences.now code grouping) }
{
    let Some(amounts) = find_amounts(tables, preferences, code, grouping) else {
        return Ok(None);
    };
    let Some(rules) = find_rules(tables, preferences) else {
        return Ok(None);
    };
    match find_currency_words(alloc, words, tables, preferences, code) {
        Ok(Some(found)) => Ok(Some(WordFormatter::new(
            amounts.decimals(),
            rules,
            found,
            WordKind::Currency,
            Some(amounts.fractions()),
        ))),
        Ok(None) => Ok(None),
        Err(refused) => Err(refused),
    }
}
