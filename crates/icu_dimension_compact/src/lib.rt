//! Compact amounts of money: `$1.2M` in English, `1,2 Mio. €` in German.
//!
//! A table has types with exponents, as one of compact decimals, and for each plural a pattern with the place of the
//! currency. What is shown is what a compact decimal of the same types shows.
//!
//! ```rust
//! use icu_dimension_compact::{CompactCurrencyTables, ShortCurrencyCompact};
//!
//! let table = ShortCurrencyCompact::try_new(entries, patterns)?;          // of type 6, exponent 6, `¤` and `M`
//! let tables = CompactCurrencyTables::new(plain, ends, &rules, &table);   // over the tables of plain amounts
//! if tables.can_format(&amount) {
//!     tables.format(&amount)?.write_to(&mut sink)?;                       // of 1234567 in dollars: $1.2M
//! }
//! ```
#![tactic(auto)]

mod error;
mod formatted;
pub mod laws;
mod short_currency_compact;
mod tables;

pub use error::ShortCurrencyCompactError;
pub use formatted::FormattedCompactCurrency;
pub use icu_decimal_compact_value::CompactEntry;
pub use short_currency_compact::{AmountPatterns, ShortCurrencyCompact};
pub use tables::CompactCurrencyTables;
