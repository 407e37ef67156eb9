//! A law, beside the clauses of the calls: equal preferences find the same tables.

ghost use Rattle.std.specs.Prelude.{◌≡◌, ◌↔◌, IsTrue};
ghost use Rattle.icu_decimal.specs.FoundLaws.{FindTheSameTables};

use crate::laws::tables::same_preferences;
use crate::preferences::DecimalFormatterPreferences;

/// A law: true exactly of equal preferences, which find the same tables of every provider, with the same options. It is
/// true of those of `EN-u-NU-thai` and `en-u-nu-thai`, false of those of `en-u-nu-thai` and `en`.
pub fn same_tables(one: &DecimalFormatterPreferences, other: &DecimalFormatterPreferences) -> bool
    ensures same { IsTrue result ↔ (one.now ≡ other.now) }
    ensures tables { IsTrue result → FindTheSameTables one.now other.now }
{
    same_preferences(one, other)
}
