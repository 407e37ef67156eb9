//! Unsigned decimal numbers with a visible range of digits: the inner crate of `fixed_decimal`.
//!
//! `UnsignedDecimal` has the digits of a number, which `fixed_decimal_digits` keeps, and the range of
//! magnitudes that its text shows.

#![tactic(auto)]

mod comparing;
mod concatenation;
mod cutting;
mod error;
mod given_digits;
mod integers;
pub mod laws;
mod nonzero;
mod places;
mod reading;
mod rounding;
mod rounding_calls;
mod shifting;
mod short_text;
mod shown_digits;
mod text_parts;
mod trimming;
mod unsigned_decimal;
mod writing;

pub use error::{ConcatenateError, ParseError};
pub use fixed_decimal_digits::{RoundingIncrement, ShownDigits, Turns, UnsignedRoundingMode};
pub use given_digits::GivenDigits;
pub use reading::capped_number;
pub use unsigned_decimal::UnsignedDecimal;
