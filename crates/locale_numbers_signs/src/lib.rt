//! What a book has of the signs of scientific text, of about and of ranges, each under a locale and a numbering system or
//! none.
//!
//! The entry `["de","","E","·","‰","≈",["","–",""],["","+"],["≤",""]]` says that German has `E` before exponents, `·` as
//! the sign of multiplication, and `–` between the ends of a range.

#![tactic(auto)]

mod entry;
mod loading;
mod marker;
mod number_signs;

pub use loading::load_number_signs;
pub use marker::NumberSignsV1;
pub use number_signs::{BoundSigns, NumberSigns, RangeSigns};
