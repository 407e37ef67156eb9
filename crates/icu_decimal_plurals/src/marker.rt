//! The kind of tables that plural rules are.

use crate::rules::PluralRules;
use icu_decimal_symbols::DataMarker;

/// The plural rules of a locale for cardinal numbers: `1 book`, `2 books`.
#[derive(Clone, Copy, Debug)]
pub struct PluralsCardinalV1;

impl DataMarker for PluralsCardinalV1 {
    type DataStruct = PluralRules;
}
