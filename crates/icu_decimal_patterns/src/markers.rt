//! The kinds of tables of compact writing.

use crate::compact_patterns::CompactPatterns;
use icu_decimal_symbols::DataMarker;

/// The table of a locale's short compact writing: `1.2K` in English.
#[derive(Clone, Copy, Debug)]
pub struct DecimalCompactShortV1;

impl DataMarker for DecimalCompactShortV1 {
    type DataStruct = CompactPatterns;
}

/// The table of a locale's long compact writing: `1.2 thousand` in English.
#[derive(Clone, Copy, Debug)]
pub struct DecimalCompactLongV1;

impl DataMarker for DecimalCompactLongV1 {
    type DataStruct = CompactPatterns;
}
