//! What a book has of plurals beside its cardinal rules: ordinal rules, and the categories of ranges.
//!
//! Of `[[["en",[["two","n = 2"]]]],[["en",[["other","one","other"]]]]]` the first array says that 2 is of `two` by the
//! ordinal rules of English, the second that a range from `other` to `one` is of `other`.

#![tactic(auto)]

mod arrays;
mod marker;
mod plurals;
mod ranges;

pub use arrays::{PluralArrays, is_array_at, items_of, next_array, next_items};
pub use marker::{PluralsOrdinalV1, PluralsRangesV1};
pub use plurals::Plurals;
pub use ranges::PluralRanges;
