//! What a book has of compact amounts of money, each table under a locale and a numbering system or none.
//!
//! The entry `["en","",[[3,3,[["other",["¤","K"],["¤ ","K"]]]]]]` says that in English 1234 dollars are `$1.2K`, and
//! francs, whose code ends with a letter, have a space: `CHF 1.2K`.

#![tactic(auto)]

mod amounts;
mod entry;
mod loading;
mod marker;
mod patterns;
mod slots;
mod types;

pub use amounts::CompactAmounts;
pub use loading::load_compact_amounts;
pub use marker::ShortCurrencyCompactV1;
