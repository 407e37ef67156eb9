//! How amounts of money are written.

use icu_decimal::provider::DecimalSymbols;
use icu_dimension_affixes::UnitPatterns;
use std::marker::Model;

/// How amounts are written: in English the unit is before the number.
#[derive(Debug, Drop)]
pub struct AmountPatterns {
    /// The symbols of amounts, where these are others than the locale's.
    pub symbols: Option<DecimalSymbols>,
    /// The texts before and after the number, and those for a unit with a letter next to the number.
    pub patterns: UnitPatterns,
}

impl Model for AmountPatterns {
    ghost use Rattle.icu_dimension.specs.ProvidedUnits.{AmountTexts};

    ghost Value = { AmountTexts };

    ghost view = { λ a. record { symbols = a.symbols; patterns = a.patterns } };
}
