//! The groups of a number's digits: where a grouping separator follows, and how many digits each group has.
//!
//! With the sizes 3, 2, 1 the number 100000 is written `1,00,000`: a separator follows the digits at the magnitudes 5
//! and 3, and its groups have 1, 2 and 3 digits. The rules are in docs/plain-text.md, "Groups".
//!
//! ```rust
//! use icu_decimal_grouping::GroupSizes;
//! use icu_decimal_grouping::grouper::check;
//!
//! let follows = check(5, 3, GroupingStrategy::Auto, sizes);               // true
//! let groups = GroupSizes::of(6, GroupingStrategy::Auto, sizes);          // 1, 2, 3
//! ```
#![tactic(auto)]

mod group_sizes;
pub mod grouper;
pub mod laws;

pub use group_sizes::{CHUNK, GroupSizes};
