//! Rows of the readers of one variant and one keyword at most.

use crate::call::Call;
use crate::refusals::read;
use crate::writing::put_next;
use icu_locale_core::ParseError;
use icu_locale_core::parser::{
    OneVariantParts, ParserMode, SingleParts, SubtagIterator,
    parse_language_identifier_with_single_variant,
    parse_locale_with_single_variant_single_keyword_unicode_extension_from_iter,
    parse_locale_with_single_variant_single_keyword_unicode_keyword_extension,
};
use rows::{Stop, put_text};

/// The mode of this name.
pub fn mode_of(name: &str) -> Result<ParserMode, Stop> {
    match name {
        "LanguageIdentifier" => Ok(ParserMode::LanguageIdentifier),
        "Locale" => Ok(ParserMode::Locale),
        "Partial" => Ok(ParserMode::Partial),
        _ => Err(Stop::Unknown),
    }
}

/// The answer of a call of the readers that take a mode.
pub fn in_mode(call: &Call<'_>, out: &mut String) -> Result<(), Stop> {
    let mode = mode_of(call.first)?;
    let text = call.second.as_bytes();
    match call.name {
        "parse_locale_with_single_variant_single_keyword_unicode_extension_from_iter" => {
            let pieces = SubtagIterator::new(text);
            put_single(
                parse_locale_with_single_variant_single_keyword_unicode_extension_from_iter(
                    pieces, mode,
                ),
                out,
            )
        }
        "parse_locale_with_single_variant_single_keyword_unicode_keyword_extension" => put_single(
            parse_locale_with_single_variant_single_keyword_unicode_keyword_extension(text, mode),
            out,
        ),
        "parse_language_identifier_with_single_variant" => {
            let parts = parse_language_identifier_with_single_variant(text, mode);
            put_parts(read(parts, out)?, out)
        }
        _ => Err(Stop::Unknown),
    }
}

/// Writes the texts of the parts, with `-` for each that is missing: `en - US -`, and after them the keyword, if any.
pub fn put_single(parts: Result<SingleParts, ParseError>, out: &mut String) -> Result<(), Stop> {
    let (language, script, region, variant, keyword) = read(parts, out)?;
    put_parts((language, script, region, variant), out)?;
    match keyword {
        Some((key, value)) => {
            put_next(out, Some(&key))?;
            put_next(out, value.as_ref())
        }
        None => Ok(()),
    }
}

/// Writes the texts of the parts of a language identifier, with `-` for each that is missing: `en - US -`.
pub fn put_parts(parts: OneVariantParts, out: &mut String) -> Result<(), Stop> {
    let (language, script, region, variant) = parts;
    put_text(out, language.as_str())?;
    put_next(out, script.as_ref())?;
    put_next(out, region.as_ref())?;
    put_next(out, variant.as_ref())
}
