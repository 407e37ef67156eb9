//! Reading tags piece by piece.
//!
//! [`SubtagIterator`] has the pieces of a text, and [`ParserMode`] says where a language part ends:
//! `parse_language_identifier` in mode `Locale` reads `en-US` of `en-US-u-nu-thai`. The readers with a single variant
//! do not allocate.

pub use icu_locale_core_grammar::ParseError;
pub use icu_locale_core_langid::single::{
    SingleParts, parse_language_identifier_with_single_variant,
    parse_locale_with_single_variant_single_keyword_unicode_extension_from_iter,
    parse_locale_with_single_variant_single_keyword_unicode_keyword_extension,
};
pub use icu_locale_core_langid::{
    OneVariantParts, ParserMode, parse_language_identifier, parse_language_identifier_from_iter,
};
pub use icu_locale_core_locale::parse_locale;
pub use icu_locale_core_subtags::SubtagIterator;
