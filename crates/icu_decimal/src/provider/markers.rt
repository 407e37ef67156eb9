//! The kinds of tables.

use icu_decimal_symbols::{DataMarker, DecimalSymbols};

/// The symbols of a locale: the texts around and between the digits, and where groups end. Of `en` they are `-`, `+`,
/// `.`, `,` and the sizes 3, 3, 1.
#[derive(Clone, Copy, Debug)]
pub struct DecimalSymbolsV1;

impl DataMarker for DecimalSymbolsV1 {
    type DataStruct = DecimalSymbols;
}

/// The ten digits of a numbering system, from zero up: of `thai` `๐` to `๙`.
#[derive(Clone, Copy, Debug)]
pub struct DecimalDigitsV1;

impl DataMarker for DecimalDigitsV1 {
    type DataStruct = [char; 10];
}
