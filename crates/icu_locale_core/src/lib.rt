//! Locale tags: read, changed, compared and printed, and what they prefer, after the ICU4X crate of this name.
//!
//! `en-Latn-US-u-nu-thai` is the language `en`, the script `Latn`, the region `US` and a keyword `nu` with the value
//! `thai`. The rules are in docs/tags.md and docs/preferences.md. This crate has what a locale prefers and the locale
//! that data is asked for; all else it re-exports from its inner crates, under ICU4X's paths.
//!
//! ```rust
//! use icu_locale_core::Locale;
//! use icu_locale_core::preferences::LocalePreferences;
//!
//! let locale = Locale::try_from_str(alloc, "EN-latn-us-u-NU-thai")?;                  // en-Latn-US-u-nu-thai
//! let locale = Locale::try_from_str(alloc, "en-US-u-rg-gbeng-sd-ustx")?;
//! let asked = LocalePreferences::from(&locale).to_data_locale_region_priority();      // en-GB-u-sd-gbeng
//! ```
#![tactic(auto)]

mod comparing;
mod data_locale;
pub mod extensions;
mod joining;
mod keywords;
pub mod laws;
mod locale_preferences;
mod making;
pub mod parser;
pub mod preferences;
mod printing;
mod reading;
mod single_parts;
pub mod subtags;

pub use crate::data_locale::DataLocale;
pub use icu_locale_core_grammar::ParseError;
pub use icu_locale_core_langid::LanguageIdentifier;
pub use icu_locale_core_locale::{Locale, TryFromLocaleBytes};
