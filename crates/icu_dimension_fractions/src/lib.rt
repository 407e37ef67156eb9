//! The codes of currencies, their digits, how many an amount has after the point, and to which multiples of the last
//! one it is rounded, the styles of amounts, and the signs of percents.
//!
//! A dollar has two digits, a yen none, and Swiss francs in cash are multiples of 5 of the last of two. The rules are in
//! docs/units.md.
//!
//! ```rust
//! use icu_dimension_fractions::{CurrencyUsage, Fraction, FractionInfo, FractionIncrement};
//!
//! let cash = Fraction { digits: 2, increment: FractionIncrement::MultiplesOf5 };
//! let francs = FractionInfo { standard: Fraction::two_digits(), cash };
//! let amount = francs.fraction(CurrencyUsage::Cash).rounded(amount)?;     // 2.35 of 2.345
//! ```
#![tactic(auto)]

mod code;
mod fraction;
mod increment;
pub mod laws;
mod percent_sign;
mod style;

pub use code::{CurrencyCode, CurrencyCodeError};
pub use fraction::{CurrencyUsage, Fraction, FractionInfo};
pub use increment::FractionIncrement;
pub use percent_sign::PercentSign;
pub use style::{CurrencyStyle, CurrencyWidth};
