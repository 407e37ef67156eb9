//! How numbers are written, whatever the locale: a format's shape, by which its tables are found, and its options, what is
//! made of a number before it is written.
//!
//! The rules are in docs/requests.md, "Rounding and sign", docs/units.md, "Digits of a currency", and docs/numbers.md.
//!
//! ```rust
//! use locale_numbers_formats::{NumberOptions, Rounding, TrailingZeros};
//!
//! let options = NumberOptions {
//!     rounding: Rounding::At(-2, mode, RoundingIncrement::MultiplesOf1),
//!     zeros: TrailingZeros::Trim,
//!     ..NumberOptions::default()
//! };
//! options.change(None, &mut number)?;                                     // 1.5 of 1.501
//! ```
#![tactic(auto)]

mod changing;
mod cutting;
mod exponents;
mod increments;
pub mod laws;
mod marks;
mod normal_text;
mod options;
mod padding;
mod shape;
mod significant;
mod skeleton;
mod skeleton_error;
mod stem_table;
mod stems;
mod word_table;

pub use cutting::{cut_field, cut_last};
pub use options::{
    LeadingZeros, NumberOptions, Rounding, RoundingPriority, SignAsked, SignificantDigits,
    TrailingZeros,
};
pub use shape::{
    CompactWidth, CurrencyUnit, Notation, NumberFormat, NumberShape, NumberUnit, ScientificStyle,
};
pub use skeleton::Skeleton;
pub use skeleton_error::SkeletonError;
pub use stems::{
    Precision, SkeletonGrouping, SkeletonNotation, SkeletonSign, SkeletonUnit, WholeZeros,
};
pub use word_table::value_beside;
