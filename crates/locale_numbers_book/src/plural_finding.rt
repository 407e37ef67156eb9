//! The plural rules that tables have for preferences.

ghost use Rattle.std.specs.Prelude.{◌≡◌, ◌∷◌, ◌++◌, [], option_map};
ghost use Rattle.std.specs.Option.{option_copied};
ghost use Rattle.std.specs.Result.{result_map_both};
ghost use Rattle.icu_decimal.specs.Choice.{first_found, found_or};
ghost use Rattle.icu_decimal.specs.Identifiers.{under_each};
ghost use Rattle.icu_decimal.specs.declared.error.DataError.{DataError};
ghost use Rattle.icu_decimal_chains.specs.Chains.{chain};
ghost use Rattle.icu_locale_core.specs.DataLocales.{unknown_data};
ghost use Rattle.icu_locale_core.specs.TagPreferences.{language_priority};
ghost use Rattle.locale_numbers_book.specs.FoundRules.{cardinals_for, lists_for, ordinals_for, plural_rules_for, ranges_for, rules_for, rules_held};

use crate::tables::Tables;
use icu_decimal::DecimalFormatterPreferences;
use icu_decimal::plurals::PluralRules;
use icu_decimal::provider::{
    DataError, DataIdentifier, DataMarker, DataProvider, ParentProvider, PluralsCardinalV1,
    load_by_chain,
};
use icu_locale_core::DataLocale;
use icu_plurals::{PluralRange, PluralRuleType, PluralRulesWithRanges};
use locale_numbers_plurals::{PluralRanges, PluralsOrdinalV1, PluralsRangesV1};

static NO_RANGES: [PluralRange; 0] = [];

// The locale whose chain preferences ask for.
fn locale_of(preferences: &DecimalFormatterPreferences) -> DataLocale
    ensures { result ≡ language_priority preferences.now.locale }
{
    preferences
        .locale_preferences
        .to_data_locale_language_priority()
}

// The table of `und`.
fn load_unknown<'a, M: DataMarker, P: DataProvider<M>>(
    provider: &'a P,
) -> Result<&'a M::DataStruct, DataError>
    ensures { result_map_both (λ found. found.now) (λ error. error) result
        ≡ found_or (λ id. P.table provider.now id) DataError.IdentifierNotFound (under_each [] (unknown_data ∷ [])) }
{
    provider.load(&DataIdentifier::for_locale(DataLocale::default()))
}

// The first table along the chain of a locale, and then that of `und`.
fn load_with_unknown<'a, M: DataMarker, P: DataProvider<M> + ParentProvider>(
    provider: &'a P,
    locale: &DataLocale,
) -> Result<&'a M::DataStruct, DataError>
    ensures { result_map_both (λ found. found.now) (λ error. error) result ≡ first_found (λ id. P.table provider.now id)
        (under_each [] (chain (P.next provider.now) (P.limit provider.now) locale.now ++ unknown_data ∷ [])) }
{
    match load_by_chain::<M, P>(provider, locale, None) {
        Ok(found) => Ok(found),
        Err(error) => match error {
            DataError::IdentifierNotFound => load_unknown::<M, P>(provider),
            _ => Err(error),
        },
    }
}

// The cardinal rules, as compact numbers have them.
fn find_cardinals<'a, T: Tables>(tables: &'a T, locale: &DataLocale) -> Option<&'a PluralRules>
    ensures { option_copied result ≡ cardinals_for (T.book tables.now) locale.now }
{
    match load_by_chain::<PluralsCardinalV1, T>(tables, locale, None) {
        Ok(rules) => Some(rules),
        Err(_) => None,
    }
}

// The ordinal rules.
fn find_ordinals<'a, T: Tables>(tables: &'a T, locale: &DataLocale) -> Option<&'a PluralRules>
    ensures { option_copied result ≡ ordinals_for (T.book tables.now) locale.now }
{
    match load_with_unknown::<PluralsOrdinalV1, T>(tables, locale) {
        Ok(rules) => Some(rules),
        Err(_) => None,
    }
}

// The rules of a type.
fn find_rules<'a, T: Tables>(
    tables: &'a T,
    locale: &DataLocale,
    rule_type: PluralRuleType,
) -> Option<&'a PluralRules>
    ensures { option_copied result ≡ rules_for rule_type (T.book tables.now) locale.now }
{
    match rule_type {
        PluralRuleType::Cardinal => find_cardinals(tables, locale),
        PluralRuleType::Ordinal => find_ordinals(tables, locale),
    }
}

// The entry of ranges.
fn find_lists<'a, T: Tables>(tables: &'a T, locale: &DataLocale) -> Option<&'a PluralRanges>
    ensures { option_copied result ≡ lists_for (T.book tables.now) locale.now }
{
    match load_with_unknown::<PluralsRangesV1, T>(tables, locale) {
        Ok(found) => Some(found),
        Err(_) => None,
    }
}

// The ranges of an entry.
fn listed(found: &PluralRanges) -> &[PluralRange]
    ensures { result.now ≡ found.now }
{
    found.ranges.as_slice()
}

// The categories of ranges; none where no entry is found.
fn find_ranges<'a, T: Tables>(tables: &'a T, locale: &DataLocale) -> &'a [PluralRange]
    ensures { result.now ≡ ranges_for (T.book tables.now) locale.now }
{
    match find_lists(tables, locale) {
        Some(found) => listed(found),
        None => &NO_RANGES,
    }
}

/// The plural rules of a type that preferences ask for, of the tables of a book, and the categories of ranges: of the
/// world's book with `de-AT` the cardinal rules of `de`, by which 1 is of `one`, and with `en-AU` the ordinal ones of
/// `en`, by which 2 is of `two`.
///
/// Cardinal rules are those that compact numbers have, along the chain of the locale; ordinal rules and ranges are found
/// along it too, and then under `und`. It borrows its tables. `None`: no entry of these rules is found. Where none of
/// ranges is, the list is empty, and each range has the category of its second end. It does not allocate.
pub fn find_plural_rules<'a, T: Tables>(
    tables: &'a T,
    preferences: DecimalFormatterPreferences,
    rule_type: PluralRuleType,
) -> Option<PluralRulesWithRanges<'a>>
    ensures { option_map rules_held result ≡ plural_rules_for rule_type (T.book tables.now) preferences }
{
    let locale = locale_of(&preferences);
    match find_rules(tables, &locale, rule_type) {
        Some(rules) => {
            let ranges = find_ranges(tables, &locale);
            Some(PluralRulesWithRanges { rules, ranges })
        }
        None => None,
    }
}
