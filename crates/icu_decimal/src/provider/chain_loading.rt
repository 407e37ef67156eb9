//! The first table that is found along the parents of a locale.

ghost use Rattle.std.specs.Prelude.{◌≡◌};
ghost use Rattle.std.specs.Result.{result_map_both};
ghost use Rattle.icu_decimal_chains.specs.Chains.{chain};
ghost use Rattle.icu_decimal.specs.Choice.{first_found};
ghost use Rattle.icu_decimal.specs.Identifiers.{identifiers_along, under_each};

use crate::provider::data_provider::DataProvider;
use crate::provider::identifier::DataIdentifier;
use crate::provider::parents::ParentProvider;
use icu_decimal_symbols::{DataError, DataMarker};
use icu_locale_core::DataLocale;
use icu_locale_core::preferences::extensions::unicode::keywords::NumberingSystem;
use tinystr::TinyAsciiStr;

/// The first table along the chain of the locale, under the same attributes at each: under the parents `en-AU`, `en-001`,
/// `en` and with `thai` that of `en-AU`, of `en-001` or of `en`, each with `thai`.
///
/// It takes as many steps as the provider's `chain_limit` says, at most. Another error than `IdentifierNotFound` is
/// returned at once; `IdentifierNotFound`: none of them has a table. It does not allocate.
pub fn load_along<'p, M: DataMarker, P: DataProvider<M> + ParentProvider>(
    provider: &'p P,
    locale: &DataLocale,
    attributes: TinyAsciiStr<8>,
) -> Result<&'p M::DataStruct, DataError>
    ensures { result_map_both (λ found. found.now) (λ error. error) result ≡ first_found (λ id. P.table provider.now id)
        (under_each attributes (chain (P.next provider.now) (P.limit provider.now) locale.now)) }
{
    let mut current = *locale;
    for _turn in 0..provider.chain_limit() {
        let id = DataIdentifier::for_marker_attributes_and_locale(attributes, current);
        match provider.load(&id) {
            Ok(found) => return Ok(found),
            Err(DataError::IdentifierNotFound) => {}
            Err(error) => return Err(error),
        }
        match provider.parent(&current) {
            Some(parent) => current = parent,
            None => return Err(DataError::IdentifierNotFound),
        }
    }
    let id = DataIdentifier::for_marker_attributes_and_locale(attributes, current);
    provider.load(&id)
}

/// The first table along the chain of the locale: each locale of it with the numbering system, where one is given, then
/// each without.
///
/// Under the parents `en-AU`, `en-001`, `en` and with `thai` it asks for `en-AU` with `thai`, `en-001` with `thai`,
/// `en` with `thai`, then for `en-AU`, `en-001`, `en`. It takes as many steps as the provider's `chain_limit` says, at
/// most, each time. Another error than `IdentifierNotFound` is returned at once; `IdentifierNotFound`: none of them has
/// a table. It does not allocate.
pub fn load_by_chain<'p, M: DataMarker, P: DataProvider<M> + ParentProvider>(
    provider: &'p P,
    locale: &DataLocale,
    system: Option<NumberingSystem>,
) -> Result<&'p M::DataStruct, DataError>
    ensures { result_map_both (λ found. found.now) (λ error. error) result ≡ first_found (λ id. P.table provider.now id)
        (identifiers_along system (chain (P.next provider.now) (P.limit provider.now) locale.now)) }
{
    let alone = TinyAsciiStr::default();
    let system = match system {
        Some(system) => system.to_tinystr(),
        None => return load_along::<M, P>(provider, locale, alone),
    };
    match load_along::<M, P>(provider, locale, system) {
        Ok(found) => Ok(found),
        Err(error) => match error {
            DataError::IdentifierNotFound => load_along::<M, P>(provider, locale, alone),
            _ => Err(error),
        },
    }
}
