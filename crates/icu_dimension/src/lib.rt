//! Percents and amounts of money as a locale writes them, after `dimension` of ICU4X's `icu_experimental`.
//!
//! A formatter borrows patterns, symbols and digits from a provider, and writes any decimal to any sink, with its parts:
//! in English `12.5%` and `-€1,234.50`. The rules are in docs/units.md. This crate re-exports its inner crates: what is
//! written with a pattern and a unit that the caller has, texts read back, and the digits of currencies.
//!
//! ```rust
//! use icu_dimension::{CurrencyCode, CurrencyFormatter, CurrencyFormatterOptions, CurrencyUsage};
//!
//! let francs = CurrencyCode::try_from_str("CHF")?;
//! let options = CurrencyFormatterOptions::default();
//! let formatter = CurrencyFormatter::try_new_unstable(&provider, preferences, francs, options)?;
//! let amount = formatter.rounded(amount, CurrencyUsage::Cash)?;           // -5 gives -5.00
//! formatter.format(&amount).write_to(&mut sink)?;                         // CHF-5.00 in Swiss German
//! ```
#![tactic(auto)]

mod currency;
pub mod laws;
mod options;
mod percent;
pub mod provider;
mod reading;

pub use currency::CurrencyFormatter;
pub use icu_dimension_affixes::{
    FormattedUnit, LetterEnds, NumberInUnit, Unit, UnitAffixes, UnitKind, UnitPattern,
    UnitPatternError, UnitPatterns, UnitPlace, UnitReader, UnitTables, parts,
};
pub use icu_dimension_fractions::{
    CurrencyCode, CurrencyCodeError, CurrencyStyle, CurrencyUsage, CurrencyWidth, Fraction,
    FractionIncrement, FractionInfo, PercentSign,
};
pub use icu_dimension_lenient::LenientUnitReader;
pub use options::{CurrencyFormatterOptions, PercentFormatterOptions};
pub use percent::PercentFormatter;
