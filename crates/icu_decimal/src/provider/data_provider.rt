//! Who provides tables.

ghost use Rattle.std.specs.Prelude.{◌≡◌};

use crate::provider::identifier::DataIdentifier;
use icu_decimal_symbols::{DataError, DataMarker};

/// A provider of the tables of one kind. What it returns is a function of the identifier: under `en` the sample book
/// always lends the symbols of English.
///
/// After ICU4X's `DataProvider`.
pub trait DataProvider<M: DataMarker> {
    ghost use Rattle.std.specs.Prelude.{◌≡◌, Result};
    ghost use Rattle.std.specs.Result.{result_map_both};
    ghost use Rattle.icu_decimal_symbols.specs.declared.error.DataError.{DataError};
    ghost use Rattle.icu_decimal.specs.Identifiers.{Identifier};

    // what is under each identifier
    ghost table: { Self → Identifier → Result M.DataStruct DataError };

    /// The table under the identifier, borrowed from the provider: of the sample book under `thai` the digits `๐` to
    /// `๙`.
    ///
    /// `IdentifierNotFound`: there is no table, as under `wxyz`. Any other error is the provider's own. It does not
    /// allocate.
    fn load(&self, id: &DataIdentifier) -> Result<&M::DataStruct, DataError>
        ensures { result_map_both (λ found. found.now) (λ error. error) result ≡ table self.now id.now };
}
