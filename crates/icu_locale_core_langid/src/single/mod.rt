//! Tags of at most one variant and one keyword; reading them does not allocate.
//!
//! `en-US-u-nu-thai` is the language `en`, the region `US` and the keyword `nu` with the value `thai`, each of a size
//! that is known before it is read. The rules are in docs/tags.md, "One variant and one keyword" and "Modes".
//!
//! ```rust
//! use icu_locale_core_langid::ParserMode;
//! use icu_locale_core_langid::single::parse_language_identifier_with_single_variant;
//!
//! let (language, _, region, _) = parse_language_identifier_with_single_variant(b"EN-us", ParserMode::Locale)?;
//! ```

pub mod known_rows;
pub mod laws;
mod parser;
mod parts;
mod stage;

pub use self::parser::{
    parse_language_identifier_with_single_variant,
    parse_locale_with_single_variant_single_keyword_unicode_extension_from_iter,
    parse_locale_with_single_variant_single_keyword_unicode_keyword_extension,
};
pub use self::parts::SingleParts;
