//! What tables a number is written with, and the format that it is written by.

use crate::options::NumberOptions;
use icu_decimal_scientific::{ExponentOptions, ScientificNotation};
use icu_decimal_symbols::options::GroupingStrategy;
use icu_dimension_fractions::{CurrencyCode, CurrencyStyle, CurrencyWidth, PercentSign};

/// Which patterns a compact number is written with.
#[derive(Clone, Copy, Debug, Default, PartialEq, Eq, Hash)]
pub enum CompactWidth {
    /// The short ones: `1.6K`.
    #[default]
    Short,
    /// The long ones: `1.6 thousand`.
    Long,
}

/// How scientific numbers are written: by the default 1200000 is `1.2E6`.
#[derive(Clone, Copy, Debug, Default, PartialEq, Eq, Hash)]
pub struct ScientificStyle {
    /// Which exponents there are: each, or the multiples of three.
    pub notation: ScientificNotation,
    /// How they are shown: with which sign and how many digits.
    pub exponents: ExponentOptions,
}

/// How the digits of a number are written. After ICU4C's notation of number formatting.
#[derive(Clone, Copy, Debug, Default, PartialEq, Eq, Hash)]
pub enum Notation {
    /// All of them: `1,600`.
    #[default]
    Standard,
    /// The first ones, with a compact pattern: `1.6K`.
    Compact(CompactWidth),
    /// Those that options leave of what is before a compact pattern: `1.60K` by two fraction digits.
    CompactDigits(CompactWidth, NumberOptions),
    /// Those that options leave of a significand, with an exponent behind it: `1.6E3`.
    Scientific(ScientificStyle, NumberOptions),
}

/// A currency, and how it is written beside an amount.
#[derive(Clone, Copy, Debug, PartialEq, Eq, Hash)]
pub struct CurrencyUnit {
    /// Its code: `EUR`.
    pub code: CurrencyCode,
    /// For whom the amount is written: in general or in accounting.
    pub style: CurrencyStyle,
    /// By what the currency is written: its symbol or its code.
    pub width: CurrencyWidth,
}

/// What is written beside the digits. After ICU4C's unit of number formatting.
#[derive(Clone, Copy, Debug, Default, PartialEq, Eq, Hash)]
pub enum NumberUnit {
    /// Nothing: `12`.
    #[default]
    None,
    /// A sign of percents, beside the number as it is: `12%`, `12‰`.
    Percent(PercentSign),
    /// A currency: `€12.00`.
    Currency(CurrencyUnit),
}

/// What the tables are found by that a number is written with. The default is that of plain numbers, `1,234.5`.
#[derive(Clone, Copy, Debug, Default, PartialEq, Eq, Hash)]
pub struct NumberShape {
    /// How the digits are written.
    pub notation: Notation,
    /// What is beside them.
    pub unit: NumberUnit,
    /// Where separators are.
    pub grouping: GroupingStrategy,
}

/// How numbers are written: by which tables, and what is made of a number before. The default is that of plain numbers as
/// they are given, `1,234.5`.
#[derive(Clone, Copy, Debug, Default, PartialEq, Eq)]
pub struct NumberFormat {
    /// What the tables are found by.
    pub shape: NumberShape,
    /// What is made of a number.
    pub options: NumberOptions,
}
