//! The plain text of a number's text, put without a number in between.
//!
//! In English the text of `-1234.5` is put as `-1,234.5`: its digits are looked at, and then they and the symbols between
//! them are put into bytes. The rules are in docs/plain-text.md.
//!
//! ```rust
//! use icu_decimal_direct::{TextDigits, TextTables};
//!
//! let tables = TextTables::of(&symbols, &digits, GroupingStrategy::Auto)?;
//! let number = TextDigits::of(b"-1234.5")?;
//! let end = tables.put(&number, &mut bytes, 0);                           // -1,234.5
//! ```
#![tactic(auto)]

mod appending;
mod choosing;
mod leading_zeros;
mod operands;
mod putting;
mod reading;
mod short_putting;
mod short_text;
mod shown_putting;
mod sign_choice;
mod text_digits;
mod text_tables;
mod unit_choosing;
mod unit_putting;
mod unit_text_tables;

pub use text_digits::TextDigits;
pub use text_tables::TextTables;
pub use unit_text_tables::{UnitAffixTexts, UnitTextTables};
