//! Reading a language identifier of at most one variant; nothing allocates.

ghost use Rattle.std.specs.Prelude.{◌≡◌, ◌&&◌, Some, None, option_map, is_none, MatchOption, MatchResult, if◌then◌else◌};
ghost use Rattle.icu_locale_core_grammar.specs.Subtags.{title, upper, lower, is_variant};
ghost use Rattle.icu_locale_core_grammar.specs.Pieces.{pieces};
ghost use Rattle.icu_locale_core_grammar.specs.FaultyPiece.{HasFault};
ghost use Rattle.icu_locale_core_grammar.specs.TagStages.{fits_script, fits_region, language_fault};
ghost use Rattle.icu_locale_core_langid.specs.OneVariant.{MeansOneVariant, one_variant, parts_id, one_variant_after};

use crate::language_identifier::LanguageIdentifier;
use icu_locale_core_grammar::ParseError;
use icu_locale_core_subtags::{Language, Region, Script, SubtagIterator, Variant};

/// The parts of a language identifier of at most one variant: a language, a script or none, a region or none, and a
/// variant or none. The readers of one variant hold them while they read, and return them.
///
/// Those of `de-DE-1996` are `de`, no script, `DE` and `1996`. They need no allocation.
pub type OneVariantParts = (Language, Option<Script>, Option<Region>, Option<Variant>);

// The script that the piece is, right after the language.
fn next_script(parts: &OneVariantParts, piece: &[u8]) -> Option<Script>
    ensures { result ≡ (if fits_script (parts_id parts.now) piece.now then Some (title piece.now) else None) }
{
    let (_, script, region, variant) = *parts;
    if script.is_some() || region.is_some() || variant.is_some() {
        return None;
    }
    match Script::try_from_utf8(piece) {
        Ok(script) => Some(script),
        Err(_) => None,
    }
}

// The region that the piece is, before a variant.
fn next_region(parts: &OneVariantParts, piece: &[u8]) -> Option<Region>
    ensures { result ≡ (if fits_region (parts_id parts.now) piece.now then Some (upper piece.now) else None) }
{
    let (_, _, region, variant) = *parts;
    if region.is_some() || variant.is_some() {
        return None;
    }
    match Region::try_from_utf8(piece) {
        Ok(region) => Some(region),
        Err(_) => None,
    }
}

// The variant that the piece is, where there is none yet.
fn next_variant(parts: &OneVariantParts, piece: &[u8]) -> Option<Variant>
    ensures { result ≡ (if is_none parts.now.3 && is_variant piece.now then Some (lower piece.now) else None) }
{
    let (_, _, _, variant) = *parts;
    if variant.is_some() {
        return None;
    }
    match Variant::try_from_utf8(piece) {
        Ok(variant) => Some(variant),
        Err(_) => None,
    }
}

// The parts with one more piece.
fn parts_after(parts: &OneVariantParts, piece: &[u8]) -> Option<OneVariantParts>
    ensures { MatchOption result (one_variant_after (Some (parts_id parts.now)) piece.now ≡ None)
        (λ next. one_variant_after (Some (parts_id parts.now)) piece.now ≡ Some (Some (parts_id next))) }
{
    let (language, script, region, variant) = *parts;
    match next_script(parts, piece) {
        Some(script) => Some((language, Some(script), region, variant)),
        None => match next_region(parts, piece) {
            Some(region) => Some((language, script, Some(region), variant)),
            None => match next_variant(parts, piece) {
                Some(variant) => Some((language, script, region, Some(variant))),
                None => None,
            },
        },
    }
}

/// The step that the readers of one variant share: the parts with one more piece, where `None` means no part yet.
///
/// `None` and `de` give `de`; after it `DE` gives `de-DE`, and after `de-1996` the second variant `fonipa` gives
/// `None`, as any piece that does not fit there. It does not allocate. Source: UTS 35, section 3.1.
pub fn one_variant_step(parts: &Option<OneVariantParts>, piece: &[u8]) -> Option<OneVariantParts>
    ensures { MatchOption result (one_variant_after (option_map parts_id parts.now) piece.now ≡ None)
        (λ next. one_variant_after (option_map parts_id parts.now) piece.now ≡ Some (Some (parts_id next))) }
{
    match parts {
        None => match Language::try_from_utf8(piece) {
            Ok(language) => Some((language, None, None, None)),
            Err(_) => None,
        },
        Some(parts) => parts_after(parts, piece),
    }
}

// The fault where no piece fits after these.
fn fault_of(parts: &Option<OneVariantParts>) -> ParseError
    ensures { result ≡ language_fault (option_map parts_id parts.now) }
{
    match parts {
        None => ParseError::InvalidLanguage,
        Some(_) => ParseError::InvalidSubtag,
    }
}

impl LanguageIdentifier {
    /// The parts of the language identifier that the bytes are, where it has one variant at most. It does not allocate.
    ///
    /// `de-DE-1996` gives `de`, no script, `DE` and `1996`. `InvalidLanguage`: the first piece is no language.
    /// `InvalidSubtag`: a later piece does not fit, or is a second variant, as in `de-1996-fonipa`.
    pub fn try_from_utf8_with_single_variant(
        code_units: &[u8],
    ) -> Result<OneVariantParts, ParseError>
        ensures { MatchResult result
            (λ parts. MeansOneVariant (pieces code_units.now) (one_variant parts.0 parts.1 parts.2 parts.3))
            (λ e. HasFault MeansOneVariant (pieces code_units.now) e) }
    {
        let mut parts: Option<OneVariantParts> = None;
        for piece in SubtagIterator::new(code_units) {
            match one_variant_step(&parts, piece) {
                Some(next) => parts = Some(next),
                None => return Err(fault_of(&parts)),
            }
        }
        match parts {
            Some(parts) => Ok(parts),
            None => Err(ParseError::InvalidLanguage),
        }
    }
}
