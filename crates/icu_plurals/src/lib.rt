//! Plural categories as calls, after the ICU4X crate of this name.
//!
//! The rules of a language say which category a number has, as it is shown: in English `1` is `one`, `1.0` and `2` are
//! `other`, and by the ordinal rules `2` is `two`, as in `2nd`. A range has the category that its ends lead to. The rules
//! of this crate are in docs/plurals.md, after UTS 35, part 3, section 5 (plural rules).
#![tactic(auto)]

pub mod laws;
mod ranges;
mod rule_type;

pub use icu_decimal_plurals::{PluralCategories, PluralCategory, PluralOperands, PluralRules};
pub use ranges::{PluralRange, PluralRulesWithRanges};
pub use rule_type::PluralRuleType;
