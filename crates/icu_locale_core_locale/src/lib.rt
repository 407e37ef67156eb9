//! Whole locales: read from tags, compared and printed.
//!
//! `en-Latn-US-u-nu-thai` is the language `en`, the script `Latn`, the region `US` and a keyword `nu` with the value
//! `thai`. The rules are in docs/tags.md.
//!
//! ```rust
//! use icu_locale_core_locale::Locale;
//!
//! let locale = Locale::try_from_str(alloc, "EN-latn-us-u-NU-thai")?;
//! ```
#![tactic(auto)]

mod comparing;
mod json;
pub mod laws;
mod locale;
mod locale_bytes;
mod normalizing;
mod one_keyword;
mod parser;
mod printing;
mod well_formed;

pub use crate::locale::Locale;
pub use crate::locale_bytes::TryFromLocaleBytes;
pub use crate::parser::parse_locale;
