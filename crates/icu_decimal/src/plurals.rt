//! Plural rules: the category of a number, and a value for each category.

pub use icu_decimal_patterns::PluralElements;
pub use icu_decimal_plurals::{PluralCategory, PluralOperands, PluralRules};
