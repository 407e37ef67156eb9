//! Decimal numbers with a sign.

#![tactic(auto)]

mod adjusting;
mod comparing;
mod decimal;
mod integers;
pub mod laws;
mod modes;
mod rounding;
mod sign;
mod sign_choice;
mod signed;
mod writing;

pub use decimal::Decimal;
pub use fixed_decimal_unsigned::{
    ConcatenateError, GivenDigits, ParseError, RoundingIncrement, ShownDigits, Turns,
    UnsignedDecimal, UnsignedRoundingMode, capped_number,
};
pub use modes::SignedRoundingMode;
pub use sign::{Sign, SignDisplay};
pub use signed::Signed;
pub use writing::text_length;
