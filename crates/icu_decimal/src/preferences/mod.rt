//! Preferences: what a locale says of the numbers that it wants to see.

mod decimal;
mod keywords;

pub use decimal::{CompactDecimalFormatterPreferences, DecimalFormatterPreferences};
pub use icu_locale_core::preferences::extensions::unicode::keywords::NumberingSystem;
