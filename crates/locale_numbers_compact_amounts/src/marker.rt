//! The kind of tables of compact amounts.

use crate::amounts::CompactAmounts;
use icu_decimal::provider::DataMarker;

/// The compact amounts of a locale, under the locale and a numbering system or nothing: in English `¤` and `K` are around
/// thousands. The name is ICU4X's.
#[derive(Clone, Copy, Debug)]
pub struct ShortCurrencyCompactV1;

impl DataMarker for ShortCurrencyCompactV1 {
    type DataStruct = CompactAmounts;
}
