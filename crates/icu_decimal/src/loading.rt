//! The plain formatter and the plural rules that preferences for compact numbers ask a provider for.

ghost use Rattle.std.specs.Prelude.{◌≡◌};
ghost use Rattle.std.specs.Result.{result_map_both};
ghost use Rattle.icu_decimal_chains.specs.Chains.{chain};
ghost use Rattle.icu_decimal.specs.Choice.{first_found};
ghost use Rattle.icu_decimal.specs.FoundTables.{found_tables};
ghost use Rattle.icu_decimal.specs.HeldTables.{tables_of};
ghost use Rattle.icu_decimal.specs.FoundCompactTables.{rules_identifiers};

use crate::formatter::DecimalFormatter;
use crate::preferences::CompactDecimalFormatterPreferences;
use crate::provider::{
    DataProvider, DecimalDigitsV1, DecimalSymbolsV1, ParentProvider, load_by_chain,
};
use icu_decimal_plurals::{PluralRules, PluralsCardinalV1};
use icu_decimal_symbols::DataError;
use icu_decimal_symbols::options::{CompactDecimalFormatterOptions, DecimalFormatterOptions};

// The plain formatter of the same preferences and options.
pub fn load_plain<
    'p,
    P: DataProvider<DecimalSymbolsV1> + DataProvider<DecimalDigitsV1> + ParentProvider,
>(
    provider: &'p P,
    preferences: &CompactDecimalFormatterPreferences,
    options: CompactDecimalFormatterOptions,
) -> Result<DecimalFormatter<'p>, DataError>
    ensures { result_map_both tables_of (λ error. error) result ≡ found_tables
        (chain (P.next provider.now) (P.limit provider.now))
        (λ id. ⟦<P as DataProvider<DecimalSymbolsV1>>⟧.table provider.now id)
        (λ id. ⟦<P as DataProvider<DecimalDigitsV1>>⟧.table provider.now id)
        preferences.now options.grouping_strategy }
{
    DecimalFormatter::try_new_unstable(
        provider,
        *preferences,
        DecimalFormatterOptions::from(options),
    )
}

// The plural rules of the locale, along its chain.
pub fn load_rules<'p, P: DataProvider<PluralsCardinalV1> + ParentProvider>(
    provider: &'p P,
    preferences: &CompactDecimalFormatterPreferences,
) -> Result<&'p PluralRules, DataError>
    ensures { result_map_both (λ found. found.now) (λ error. error) result ≡ first_found (λ id. P.table provider.now id)
        (rules_identifiers (chain (P.next provider.now) (P.limit provider.now)) preferences.now) }
{
    let locale = preferences
        .locale_preferences
        .to_data_locale_language_priority();
    load_by_chain::<PluralsCardinalV1, P>(provider, &locale, None)
}
