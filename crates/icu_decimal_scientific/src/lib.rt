//! Scientific and engineering notation: a decimal as a significand and a power of ten, its text, and the text read back.
//!
//! In scientific notation 1234567.891 is 1.234567891 and the exponent 6, and 0.00012 is 1.2 and -4; in engineering
//! notation, whose exponents are multiples of three, that is 120 and -6. In English the text of the first is
//! `1.234567891E6`. The rules are in docs/scientific-text.md.
//!
//! ```rust
//! use icu_decimal_scientific::{ExponentOptions, ScientificNotation, ScientificNumber, ScientificTables};
//!
//! let number = ScientificNumber::of_decimal(decimal, ScientificNotation::Scientific)?;
//! let shown = number.shown(alloc, ExponentOptions::default())?;
//! let tables = ScientificTables::new(&decimals, "E");
//! tables.format(&shown).write_to(&mut sink)?;                             // 1.234567891E6
//! let same = tables.read(alloc, "1.234567891E6")?;
//! let decimal = tables.read_decimal(alloc, ScientificNotation::Scientific, ExponentOptions::default(), "1.234567891E6")?;
//! ```
#![tactic(auto)]

mod carry;
mod error;
mod exponent_reader;
pub mod laws;
mod notation;
mod notation_reader;
mod number;
pub mod parts;
mod places;
mod product;
mod readable;
mod reader;
mod shown;
mod tables;
mod written;

pub use carry::carry_significand;
pub use error::RangeError;
pub use notation::ScientificNotation;
pub use number::{ScientificNumber, has_form, make_significand};
pub use shown::{ExponentOptions, ExponentSign, ShownScientific, shown_exponent};
pub use tables::{FormattedScientific, ScientificTables};
pub use written::NumberWithExponent;
