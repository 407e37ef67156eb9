//! The kind of tables of signs.

use crate::number_signs::NumberSigns;
use icu_decimal::provider::DataMarker;

/// The signs of a locale, under the locale and a numbering system or nothing: in German `E` is before exponents, and `–`
/// between the ends of a range.
#[derive(Clone, Copy, Debug)]
pub struct NumberSignsV1;

impl DataMarker for NumberSignsV1 {
    type DataStruct = NumberSigns;
}
