//! The kinds of tables.

use crate::provider::amounts::AmountPatterns;
use crate::provider::names::CurrencySymbol;
use crate::provider::percents::PercentPattern;
use icu_decimal::provider::DataMarker;
use icu_dimension_fractions::FractionInfo;

/// How percents are written, under a locale and a numbering system or nothing: in Turkish `%` is before the number.
#[derive(Clone, Copy, Debug)]
pub struct PercentEssentialsV1;

impl DataMarker for PercentEssentialsV1 {
    type DataStruct = PercentPattern;
}

/// How amounts are written, under a locale and a numbering system, the code of a currency or nothing: in English `€` is
/// before the number.
#[derive(Clone, Copy, Debug)]
pub struct CurrencyEssentialsV1;

impl DataMarker for CurrencyEssentialsV1 {
    type DataStruct = AmountPatterns;
}

/// How amounts are written in accounting, under a locale and a numbering system or nothing: in English a negative one is
/// in parentheses.
#[derive(Clone, Copy, Debug)]
pub struct CurrencyAccountingV1;

impl DataMarker for CurrencyAccountingV1 {
    type DataStruct = AmountPatterns;
}

/// The symbol of a currency, under a locale and its code: in English `€` of `EUR`.
#[derive(Clone, Copy, Debug)]
pub struct CurrencySymbolsV1;

impl DataMarker for CurrencySymbolsV1 {
    type DataStruct = CurrencySymbol;
}

/// The digits of a currency, under `und` and its code: none of `JPY`.
#[derive(Clone, Copy, Debug)]
pub struct CurrencyFractionsV1;

impl DataMarker for CurrencyFractionsV1 {
    type DataStruct = FractionInfo;
}
