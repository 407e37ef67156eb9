//! The first table that is found.

ghost use Rattle.std.specs.Prelude.{◌≡◌};
ghost use Rattle.std.specs.Result.{result_map_both};
ghost use Rattle.icu_decimal.specs.Choice.{first_found};

use crate::provider::data_provider::DataProvider;
use crate::provider::identifier::DataIdentifier;
use icu_decimal_symbols::{DataError, DataMarker};

/// The table under the first identifier that the provider has.
///
/// Of `en` with `wxyz` and then only `en` it is that of `en`, where the provider has no other. `InvalidRequest`: no
/// identifier is given. Another error than `IdentifierNotFound` is returned at once, and no later identifier is asked
/// for; at the end the last one's error is returned. It does not allocate.
pub fn load_with_fallback<'p, M: DataMarker, P: DataProvider<M>>(
    provider: &'p P,
    ids: &[DataIdentifier],
) -> Result<&'p M::DataStruct, DataError>
    ensures { result_map_both (λ found. found.now) (λ error. error) result
        ≡ first_found (λ id. P.table provider.now id) ids.now }
{
    let mut last = DataError::InvalidRequest;
    for id in ids {
        match provider.load(id) {
            Ok(found) => return Ok(found),
            Err(DataError::IdentifierNotFound) => last = DataError::IdentifierNotFound,
            Err(error) => return Err(error),
        }
    }
    Err(last)
}
