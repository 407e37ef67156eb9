//! The compact amounts that preferences ask a provider for.

ghost use Rattle.std.specs.Prelude.{◌≡◌};
ghost use Rattle.std.specs.Result.{result_map_both};
ghost use Rattle.icu_dimension.specs.UnitChoice.{unit_chain};
ghost use Rattle.icu_locale_core.specs.TagPreferences.{language_priority};
ghost use Rattle.locale_numbers_compact_amounts.specs.AmountChoice.{amounts_found};

use crate::amounts::CompactAmounts;
use crate::marker::ShortCurrencyCompactV1;
use icu_decimal::preferences::DecimalFormatterPreferences;
use icu_decimal::provider::{DataError, DataProvider, ParentProvider};
use icu_dimension::provider::load_by_system;

/// The compact amounts that the preferences ask for: of the entries of `de` and of `und` with `arab`, `de-AT` has those of
/// `de`, and `de-AT-u-nu-arab` those of `und` with `arab`.
///
/// They are asked for under the numbering system, where one is, and then under none, each along the chain of the locale,
/// and then, where the provider has parents at all, under `und`. Another error than `IdentifierNotFound` is returned at
/// once; `IdentifierNotFound`: nothing is there. It does not allocate.
pub fn load_compact_amounts<'p, P: DataProvider<ShortCurrencyCompactV1> + ParentProvider>(
    provider: &'p P,
    preferences: &DecimalFormatterPreferences,
) -> Result<&'p CompactAmounts, DataError>
    ensures { result_map_both (λ found. found.now) (λ error. error) result ≡ amounts_found
        (λ id. P.table provider.now id)
        (unit_chain (P.next provider.now) (P.limit provider.now) (language_priority preferences.now.locale))
        preferences.now.numbering_system }
{
    let locale = preferences
        .locale_preferences
        .to_data_locale_language_priority();
    load_by_system::<ShortCurrencyCompactV1, P>(provider, &locale, preferences.numbering_system)
}
