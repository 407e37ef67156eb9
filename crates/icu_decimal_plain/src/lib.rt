//! How a number is written: its text with its parts, the affixes of its sign.
//!
//! With the sizes 3, 2, 1 the number 100000 is written `1,00,000`, and with a minus sign `-1,00,000`. The rules are in
//! docs/plain-text.md.
//!
//! ```rust
//! use icu_decimal_plain::{DecimalTables, FormattedSign};
//!
//! let tables = DecimalTables::new(&symbols, &digits, GroupingStrategy::Auto);
//! tables.format(&number).write_to(&mut sink)?;                            // -1,234.5
//! let negative = FormattedSign::new(Sign::Negative, &symbols, "5");       // -5
//! ```
#![tactic(auto)]

mod comparing;
mod digit_chunks;
mod formatted_sign;
mod formatted_unsigned_decimal;
pub mod laws;
mod owned_tables;
mod piece_tables;
mod runs;
mod short_runs;
mod short_text;
mod tables;
mod text_pieces;
mod text_writing;
mod writing;

pub use formatted_sign::FormattedSign;
pub use formatted_unsigned_decimal::FormattedUnsignedDecimal;
pub use owned_tables::OwnedDecimalTables;
pub use tables::{DecimalTables, FormattedDecimal};
