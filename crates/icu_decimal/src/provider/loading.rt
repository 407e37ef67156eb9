//! The tables that preferences ask a provider for.

ghost use Rattle.std.specs.Prelude.{◌≡◌, ◌∷◌, ◌++◌, [], option_to_list};
ghost use Rattle.std.specs.Result.{result_map_both};
ghost use Rattle.icu_decimal_chains.specs.Chains.{chain};
ghost use Rattle.icu_decimal.specs.Choice.{first_found};
ghost use Rattle.icu_decimal.specs.Identifiers.{symbols_identifiers, digits_identifiers};

use crate::preferences::DecimalFormatterPreferences;
use crate::provider::chain_loading::load_by_chain;
use crate::provider::data_provider::DataProvider;
use crate::provider::fallback::load_with_fallback;
use crate::provider::identifier::DataIdentifier;
use crate::provider::markers::{DecimalDigitsV1, DecimalSymbolsV1};
use crate::provider::parents::ParentProvider;
use icu_decimal_symbols::{DataError, DataMarker, DecimalSymbols};

// The first table of one identifier or none, and of another after it.
fn load_one_or<'p, M: DataMarker, P: DataProvider<M>>(
    provider: &'p P,
    first: Option<DataIdentifier>,
    other: DataIdentifier,
) -> Result<&'p M::DataStruct, DataError>
    ensures { result_map_both (λ found. found.now) (λ error. error) result
        ≡ first_found (λ id. P.table provider.now id) (option_to_list first ++ other ∷ []) }
{
    match first {
        Some(first) => load_with_fallback::<M, P>(provider, &[first, other]),
        None => load_with_fallback::<M, P>(provider, &[other]),
    }
}

/// The first table that the preferences ask for, of a kind that is where symbols do: along the chain of their
/// locale, each with their numbering system, where they have one, then each without.
///
/// With the sample book `en-u-nu-wxyz` gets the symbols of `en`. The locale is the form with the language first. Errors
/// as `load_by_chain`. It does not allocate.
pub fn load_by_locale<'p, M: DataMarker, P: DataProvider<M> + ParentProvider>(
    provider: &'p P,
    preferences: &DecimalFormatterPreferences,
) -> Result<&'p M::DataStruct, DataError>
    ensures { result_map_both (λ found. found.now) (λ error. error) result ≡ first_found (λ id. P.table provider.now id)
        (symbols_identifiers (chain (P.next provider.now) (P.limit provider.now)) preferences.now) }
{
    let locale = preferences
        .locale_preferences
        .to_data_locale_language_priority();
    load_by_chain::<M, P>(provider, &locale, preferences.numbering_system)
}

/// The symbols that the preferences ask for, by `load_by_locale`: with the sample book `en-u-nu-wxyz` gets those of
/// `en`.
///
/// Errors as `load_by_chain`. It does not allocate.
pub fn load_symbols<'p, P: DataProvider<DecimalSymbolsV1> + ParentProvider>(
    provider: &'p P,
    preferences: &DecimalFormatterPreferences,
) -> Result<&'p DecimalSymbols, DataError>
    ensures { result_map_both (λ found. found.now) (λ error. error) result ≡ first_found (λ id. P.table provider.now id)
        (symbols_identifiers (chain (P.next provider.now) (P.limit provider.now)) preferences.now) }
{
    load_by_locale::<DecimalSymbolsV1, P>(provider, preferences)
}

/// The ten digits that the preferences ask for: those of their numbering system, where they have one, then those of the
/// system that the symbols name.
///
/// With the sample book `en-u-nu-thai` gets `๐` to `๙`, and `en-u-nu-wxyz` those of `latn`. Errors as
/// `load_with_fallback`. It does not allocate.
pub fn load_digits<'p, P: DataProvider<DecimalDigitsV1>>(
    provider: &'p P,
    preferences: &DecimalFormatterPreferences,
    symbols: &DecimalSymbols,
) -> Result<&'p [char; 10], DataError>
    ensures { result_map_both (λ found. found.now) (λ error. error) result ≡ first_found (λ id. P.table provider.now id)
        (digits_identifiers preferences.now.numbering_system symbols.now.strings.numsys) }
{
    let asked = match preferences.numbering_system {
        Some(system) => Some(DataIdentifier::for_marker_attributes(system.to_tinystr())),
        None => None,
    };
    let named = DataIdentifier::for_marker_attributes(symbols.strings.system());
    load_one_or::<DecimalDigitsV1, P>(provider, asked, named)
}
