//! Decimal numbers as a locale writes them, after the ICU4X crate of this name.
//!
//! A formatter borrows symbols and digits from a provider, and writes any decimal to any sink, with its parts: in
//! English `-1,234.5`. A compact one writes 1650 as `1.6K`, and an exact form as `1.20M`. The rules are in
//! docs/plain-text.md, docs/formatters.md and docs/compact-text.md. This crate has the formatters; what they are made
//! of is in its inner crates, which it re-exports under ICU4X's paths.
//!
//! ```rust
//! use icu_decimal::DecimalFormatter;
//! use icu_decimal::options::DecimalFormatterOptions;
//! use icu_decimal::preferences::DecimalFormatterPreferences;
//!
//! let preferences = DecimalFormatterPreferences::from(&locale);           // of en-u-nu-thai
//! let options = DecimalFormatterOptions::default();
//! let formatter = DecimalFormatter::try_new_unstable(&provider, preferences, options)?;
//! let text = formatter.format_to_string(alloc, &number)?;                 // ๑,๐๐๐,๐๐๗
//! ```
#![tactic(auto)]

mod abstract_formatter;
mod compact_formatter;
pub mod error;
mod exact;
mod formatted_compact;
mod formatted_unsigned;
mod formatter;
pub mod input;
pub mod laws;
mod lenient;
mod lent;
mod loading;
pub mod pattern;
pub mod plurals;
pub mod preferences;
pub mod provider;
mod reading;
mod text_alone;
mod write_fault;
mod writing;

pub use abstract_formatter::AbstractFormatter;
pub use compact_formatter::CompactDecimalFormatter;
pub use formatted_compact::FormattedUnsignedCompactDecimal;
pub use formatted_unsigned::FormattedUnsigned;
pub use formatter::DecimalFormatter;
pub use icu_decimal_grouping::grouper;
pub use icu_decimal_lenient::LenientTables;
pub use icu_decimal_plain::{
    DecimalTables, FormattedDecimal, FormattedSign, FormattedUnsignedDecimal, OwnedDecimalTables,
};
pub use icu_decimal_symbols::{Cow, options, parts};
pub use lenient::{is_leniently_readable, read_lenient};
pub use preferences::DecimalFormatterPreferences;
pub use reading::{is_readable, read_plain, read_readable};
