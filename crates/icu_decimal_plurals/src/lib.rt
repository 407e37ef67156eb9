//! Plural rules: the category of a number, by conditions on the digits that are shown.
//!
//! English has the rule `one: i = 1 and v = 0`, so `1` is of the category `one`, and `2` and `1.0` are of `other`. The
//! rules of this crate are in docs/plurals.md, after UTS 35, part 3, section 5 (plural rules).
#![tactic(auto)]

mod categories;
mod category;
mod condition;
mod copying;
mod cut;
mod error;
mod grammar;
mod interval;
mod marker;
mod operand;
mod operands;
mod piece;
mod reading;
mod rules;
mod separator;
mod token;
mod tokens;

pub use categories::PluralCategories;
pub use category::PluralCategory;
pub use marker::PluralsCardinalV1;
pub use operands::PluralOperands;
pub use rules::PluralRules;
