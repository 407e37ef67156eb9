//! Patterns: texts around a value.

pub use icu_decimal_patterns::pattern::{Interpolated, Pattern};
