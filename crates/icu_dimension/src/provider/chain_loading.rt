//! The first table of units that is found along the locales of a chain.

ghost use Rattle.std.specs.Prelude.{◌≡◌};
ghost use Rattle.std.specs.Result.{result_map_both};
ghost use Rattle.icu_decimal.specs.Choice.{first_found, found_or};
ghost use Rattle.icu_decimal.specs.Identifiers.{under_each};
ghost use Rattle.icu_decimal.specs.declared.error.DataError.{DataError};
ghost use Rattle.icu_dimension.specs.UnitChoice.{unit_chain, unknown_last};

use icu_decimal::provider::{
    DataError, DataIdentifier, DataMarker, DataProvider, ParentProvider, load_along,
};
use icu_locale_core::DataLocale;
use tinystr::TinyAsciiStr;

// The first table along the chain, and then that of `und`, where the provider has parents.
pub(crate) fn load_under<'p, M: DataMarker, P: DataProvider<M> + ParentProvider>(
    provider: &'p P,
    locale: &DataLocale,
    attributes: TinyAsciiStr<8>,
) -> Result<&'p M::DataStruct, DataError>
    ensures { result_map_both (λ found. found.now) (λ error. error) result ≡ first_found (λ id. P.table provider.now id)
        (under_each attributes (unit_chain (P.next provider.now) (P.limit provider.now) locale.now)) }
{
    match load_along::<M, P>(provider, locale, attributes) {
        Ok(found) => Ok(found),
        Err(error) => match error {
            DataError::IdentifierNotFound => load_unknown::<M, P>(provider, attributes),
            _ => Err(error),
        },
    }
}

// The table of `und`, where the provider has parents.
fn load_unknown<'p, M: DataMarker, P: DataProvider<M> + ParentProvider>(
    provider: &'p P,
    attributes: TinyAsciiStr<8>,
) -> Result<&'p M::DataStruct, DataError>
    ensures { result_map_both (λ found. found.now) (λ error. error) result
        ≡ found_or (λ id. P.table provider.now id) DataError.IdentifierNotFound
        (under_each attributes (unknown_last (P.limit provider.now))) }
{
    if provider.chain_limit() == 0 {
        return Err(DataError::IdentifierNotFound);
    }
    provider.load(&DataIdentifier::for_marker_attributes(attributes))
}
