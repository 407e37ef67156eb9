//! The text around a compact number (`K`, ` thousand`), by plural: patterns with one placeholder, one for each plural,
//! and the tables of compact writing.
//!
//! The pattern of thousands in English writes `1.2` as `1.2K`. The rules are in docs/compact-text.md.
//!
//! ```rust
//! use icu_decimal_patterns::pattern::Pattern;
//!
//! let thousands = Pattern::around(String::new(alloc), String::from_str(alloc, "K")?);
//! thousands.interpolate("1.2");                                           // 1.2K
//! ```
#![tactic(auto)]

mod borrowed;
mod compact_patterns;
mod copying;
mod elements;
mod interpolated;
mod json;
mod kept;
pub mod laws;
mod markers;
pub mod pattern;

pub use compact_patterns::CompactPatterns;
pub use elements::PluralElements;
pub use markers::{DecimalCompactLongV1, DecimalCompactShortV1};
