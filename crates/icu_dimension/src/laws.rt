//! Laws, beside the clauses of the calls: what equal preferences find, and the laws of the inner crates.

ghost use Rattle.std.specs.Prelude.{◌≡◌, ◌↔◌, IsTrue};
ghost use Rattle.icu_dimension.specs.FoundUnitsLaws.{FindTheSameAmounts, FindTheSamePercents};

use icu_decimal::DecimalFormatterPreferences;
use icu_decimal::laws::tables::same_preferences;
pub use icu_dimension_affixes::laws as units;
pub use icu_dimension_fractions::laws as fractions;
pub use icu_dimension_lenient::laws as lenient;

/// A law: true exactly of equal preferences, which find the same units of every provider, with the same options. It is
/// true of those of `EN-u-NU-thai` and `en-u-nu-thai`, false of those of `en-u-nu-thai` and `en`.
pub fn same_units(one: &DecimalFormatterPreferences, other: &DecimalFormatterPreferences) -> bool
    ensures same { IsTrue result ↔ (one.now ≡ other.now) }
    ensures percents { IsTrue result → FindTheSamePercents one.now other.now }
    ensures amounts { IsTrue result → FindTheSameAmounts one.now other.now }
{
    same_preferences(one, other)
}
