//! What a number is written with: a locale's symbols, the parts of a formatted number, and a formatter's options; and
//! why there is no table.
//!
//! The symbols of English are `-`, `+`, `.`, `,` and the sizes 3, 3, 1. The rules are in docs/formatters.md; the names
//! are those of ICU4X's `icu_decimal`.
//!
//! ```rust
//! use icu_decimal_symbols::DecimalSymbols;
//! use icu_decimal_symbols::options::{DecimalFormatterOptions, GroupingStrategy, strategy_of};
//!
//! let symbols = DecimalSymbols::new_en_for_testing(alloc)?;               // - + . , and 3, 3, 1
//! let options = DecimalFormatterOptions::from(GroupingStrategy::Min2);
//! let strategy = strategy_of(options);                                    // Min2
//! ```
#![tactic(auto)]

mod cow;
mod data_marker;
pub mod error;
mod grouping_sizes;
pub mod laws;
pub mod options;
pub mod parts;
mod strings;
mod symbols;

pub use cow::Cow;
pub use data_marker::DataMarker;
pub use error::DataError;
pub use grouping_sizes::GroupingSizes;
pub use strings::{DecimalSymbolStrsBuilder, DecimalSymbolsStrs};
pub use symbols::DecimalSymbols;
