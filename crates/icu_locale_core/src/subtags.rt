//! The subtags of the language part: `en`, `Latn`, `US` and `1996` of `en-Latn-US-1996`.
//!
//! Each class of subtags, those of the extensions too, is a [`SubtagOf`] over its [`SubtagRule`]: the texts that it
//! accepts, their normal case, and the fault of all others.

pub use icu_locale_core_subtag_lists::Variants;
pub use icu_locale_core_subtags::{
    Language, Region, Script, Subtag, SubtagOf, SubtagRule, Variant,
};
