//! One formatter of numbers in any format: plain, compact, scientific, percents and amounts of money.
//!
//! What each writes is defined once, by layers: the digits of what is shown, in a compact pattern or none, between the
//! affixes of the sign, with the unit, or an exponent after them. The laws say that it is the text of `icu_decimal`,
//! `icu_decimal_scientific` and `icu_dimension`. The rules are in docs/plain-text.md, "Layers", and docs/formatters.md, "One
//! formatter".
//!
//! ```rust
//! use locale_numbers_formatter::NumberFormatter;
//!
//! let formatter = NumberFormatter::of_amounts(&amounts);                  // of en and EUR
//! formatter.format(&amount)?.write_to(&mut sink)?;                        // -€1,234.50
//! ```
#![tactic(auto)]

mod asked_unit_reader;
mod compact_digits;
mod digit_tables;
mod error;
mod formatted_digits;
mod formatted_number;
mod formatted_power;
pub mod laws;
mod lenient_number_reader;
mod number_formatter;
mod number_reader;
mod own_tables;
mod plain_readers_in_turn;
mod scientific;
mod shown_number;
mod shown_operands;
mod typed_unit_reader;
mod unit_readers_in_turn;

pub use compact_digits::CompactDigitsFormatter;
pub use error::ExactError;
pub use formatted_digits::FormattedDigits;
pub use formatted_number::FormattedNumber;
pub use formatted_power::FormattedPower;
pub use icu_decimal_scientific::ScientificTables;
pub use lenient_number_reader::LenientNumberReader;
pub use number_formatter::{FormatterKind, NumberFormatter};
pub use number_reader::NumberReader;
pub use own_tables::OwnNumberTables;
pub use scientific::ScientificFormatter;
pub use shown_number::ShownNumber;
