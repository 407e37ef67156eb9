//! Decimal numbers by digit and magnitude, with a sign and a range of digits shown.

#![tactic(auto)]

mod call;
mod calls;
mod compact;
mod error;
mod integer;
pub mod laws;
mod plain_text;
mod scientific;

pub use call::{Call, CallsError};
pub use calls::run_calls;
pub use compact::CompactDecimal;
pub use error::LimitError;
pub use fixed_decimal_signed::{
    ConcatenateError, Decimal, GivenDigits, ParseError, RoundingIncrement, ShownDigits, Sign,
    SignDisplay, Signed, SignedRoundingMode, Turns, UnsignedDecimal, UnsignedRoundingMode,
};
pub use integer::FixedInteger;
pub use scientific::ScientificDecimal;
