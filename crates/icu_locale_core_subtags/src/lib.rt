//! The subtags of locale tags: short words of letters and digits, each type with its rule and its case.
//!
//! `EN` reads as the [`Language`] `en`, `latn` as the [`Script`] `Latn`, `us` as the [`Region`] `US`. The rules are in
//! docs/tags.md, "Subtags".
//!
//! ```rust
//! use icu_locale_core_subtags::Region;
//!
//! assert_eq!(rt; Region::try_from_str("us")?.as_str(), "US");
//! ```
#![tactic(auto)]

mod comparing;
mod json;
pub mod laws;
mod pieces;
pub mod private;
mod raw;
mod rule;
mod rules;
mod singletons;
mod step;
mod subtag_of;
pub mod transform;
pub mod unicode;
mod words;
mod writing;

pub use crate::json::text_of_json;
pub use crate::pieces::SubtagIterator;
pub use crate::rule::SubtagRule;
pub use crate::rules::language::{Language, LanguageRule};
pub use crate::rules::region::{Region, RegionRule};
pub use crate::rules::script::{Script, ScriptRule};
pub use crate::rules::subtag::{Subtag, WordRule, value_subtag};
pub use crate::rules::variant::{Variant, VariantRule};
pub use crate::singletons::{is_letter, is_one_character};
pub use crate::step::Step;
pub use crate::subtag_of::SubtagOf;
