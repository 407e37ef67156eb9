//! Laws, beside the clauses of the calls: equal values are one value, and what the first table is.

ghost use Rattle.std.specs.Prelude.{◌≡◌, ◌↔◌, IsTrue, List};
ghost use Rattle.icu_locale_core.specs.Subtags.{Text};
ghost use Rattle.icu_locale_core.specs.TagPreferences.{DataLocaleMeaning};
ghost use Rattle.icu_decimal.specs.Identifiers.{symbols_identifiers, digits_identifiers};
ghost use Rattle.icu_decimal.specs.Laws.{FirstIsFound};

use crate::preferences::DecimalFormatterPreferences;
use crate::provider::DataIdentifier;
use icu_decimal_symbols::DataMarker;
pub use icu_decimal_symbols::laws::{same_builders, same_symbols};
use std::hash::Hash;

/// Where a provider says of each identifier that its table is there or not found, and nothing else, the first that is
/// there is taken, and not found is returned where none is. Asked for `en` with `wxyz` and then for only `en`, the
/// sample book gives the symbols of `en`.
pub fn first_is_found<M: DataMarker>()
    ensures { FirstIsFound M.DataStruct }
{}

/// Two identifiers are `==` exactly where they are one value: true of `en` and `en`, false of `en` and of `en` with
/// `thai`.
pub fn same_identifiers(one: &DataIdentifier, other: &DataIdentifier) -> bool
    ensures { IsTrue result ↔ (one.now ≡ other.now) }
{
    one == other
}

/// Two preferences are `==` exactly where they are one value; then they ask for the same tables and are hashed alike.
/// True of those of `EN-u-NU-thai` and `en-u-nu-thai`, false of those of `en-u-nu-thai` and `en`.
pub fn same_preferences(
    one: &DecimalFormatterPreferences,
    other: &DecimalFormatterPreferences,
) -> bool
    ensures same { IsTrue result ↔ (one.now ≡ other.now) }
    ensures symbols { IsTrue result → (chain : DataLocaleMeaning → List DataLocaleMeaning)
        → symbols_identifiers chain one.now ≡ symbols_identifiers chain other.now }
    ensures digits { IsTrue result → (named : Text)
        → digits_identifiers one.now.numbering_system named ≡ digits_identifiers other.now.numbering_system named }
    ensures hashed { IsTrue result
        → ⟦<DecimalFormatterPreferences as Hash>⟧.hash_input one.now
        ≡ ⟦<DecimalFormatterPreferences as Hash>⟧.hash_input other.now }
{
    one == other
}
