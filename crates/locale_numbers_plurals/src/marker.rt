//! The kinds of tables of plurals.

use crate::ranges::PluralRanges;
use icu_decimal::plurals::PluralRules;
use icu_decimal::provider::DataMarker;

/// The plural rules of a locale for ordinal numbers, under the locale: in English 2 is of `two`, as in `2nd`.
#[derive(Clone, Copy, Debug)]
pub struct PluralsOrdinalV1;

impl DataMarker for PluralsOrdinalV1 {
    type DataStruct = PluralRules;
}

/// The categories of the ranges of a locale, under the locale: in English that of `other` and `one` is `other`.
#[derive(Clone, Copy, Debug)]
pub struct PluralsRangesV1;

impl DataMarker for PluralsRangesV1 {
    type DataStruct = PluralRanges;
}
