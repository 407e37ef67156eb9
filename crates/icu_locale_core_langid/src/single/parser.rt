//! Reading tags of at most one variant and one keyword.

ghost use Rattle.std.specs.Prelude.{◌≡◌, Some, None, MatchResult};
ghost use Rattle.icu_locale_core_grammar.specs.declared.error.ParseError.{ParseError};
ghost use Rattle.icu_locale_core_grammar.specs.Pieces.{pieces};
ghost use Rattle.icu_locale_core_grammar.specs.FaultyPiece.{HasFault};
ghost use Rattle.icu_locale_core_grammar.specs.SingleVariant.{MeansSingle, HasSingleFault};
ghost use Rattle.icu_locale_core_langid.specs.OneVariant.{MeansOneVariant, parts_id};
ghost use Rattle.icu_locale_core_langid.specs.SingleModes.{single, MeansSingleInMode, MeansPartsInMode, ReadsFrontOrAll, HasSingleFaultInMode};

use crate::modes::ParserMode;
use crate::one_variant::{OneVariantParts, one_variant_step};
use crate::single::parts::{SingleParts, joined_parts};
use crate::single::stage::{Stage, parts_at_end, stage_after};
use icu_locale_core_grammar::ParseError;
use icu_locale_core_subtags::{Language, Region, Script, SubtagIterator, Variant};

// The whole tag.
fn read_tag(from: SubtagIterator<'_>) -> Result<SingleParts, ParseError>
    ensures { MatchResult result (λ parts. MeansSingle from.entry (single parts)) (λ e. HasSingleFault from.entry e) }
{
    let mut stage = Stage::InLanguage(None);
    for piece in from {
        stage = stage_after(stage, piece)?;
    }
    parts_at_end(stage)
}

// The parts that a front has, with a word on whether it is all.
fn front_of(
    parts: Option<OneVariantParts>,
    whole: bool,
) -> Result<(OneVariantParts, bool), ParseError>
    ensures { MatchResult result (λ front. (parts ≡ Some front.0) × (front.1 ≡ whole))
        (λ e. (parts ≡ None) × (e ≡ ParseError.InvalidLanguage)) }
{
    match parts {
        Some(parts) => Ok((parts, whole)),
        None => Err(ParseError::InvalidLanguage),
    }
}

// The longest front that is a language part of at most one variant, and whether it is all.
fn read_front(from: SubtagIterator<'_>) -> Result<(OneVariantParts, bool), ParseError>
    ensures { MatchResult result (λ front. ReadsFrontOrAll from.entry (parts_id front.0) front.1)
        (λ e. HasFault MeansOneVariant from.entry e × (e ≡ ParseError.InvalidLanguage)) }
{
    let mut parts: Option<OneVariantParts> = None;
    for piece in from {
        match one_variant_step(&parts, piece) {
            Some(next) => parts = Some(next),
            None => return front_of(parts, false),
        }
    }
    front_of(parts, true)
}

// All pieces as a language part of at most one variant.
#[tactic(auto, using(crate::proofs::SingleFrontLemmas::whole_front))]
fn read_language(from: SubtagIterator<'_>) -> Result<OneVariantParts, ParseError>
    ensures { MatchResult result (λ parts. MeansOneVariant from.entry (parts_id parts))
        (λ e. HasFault MeansOneVariant from.entry e) }
{
    let (parts, whole) = read_front(from)?;
    if whole {
        Ok(parts)
    } else {
        Err(ParseError::InvalidSubtag)
    }
}

/// The parts that the pieces mean with at most one variant and at most one keyword, as the mode says. It does not
/// allocate.
///
/// Of the pieces `en`, `US`, `u`, `nu`, `thai`, mode `Locale` reads `en`, `US` and the keyword `nu` with `thai`; mode
/// `Partial` reads `en` and `US` and leaves the rest unread; in mode `LanguageIdentifier` `u` is a fault. The value
/// `true` is left out. `InvalidLanguage`: the first piece is no language, or there is none; in mode `Partial` there is
/// no other fault. `InvalidSubtag`: a later piece does not fit, or is a second variant, as in `de-1996-fonipa`; in mode
/// `LanguageIdentifier` a singleton too. `InvalidExtension`, only in mode `Locale`: the singleton of an extension that
/// is not `u`, an attribute, a second key, a second piece of the value, or the end right after `u`. Source: UTS 35,
/// section 3.2; the modes are ICU4X's.
pub fn parse_locale_with_single_variant_single_keyword_unicode_extension_from_iter(
    iter: SubtagIterator<'_>,
    mode: ParserMode,
) -> Result<SingleParts, ParseError>
    ensures { MatchResult result (λ parts. MeansSingleInMode mode iter.entry (single parts))
        (λ e. HasSingleFaultInMode mode iter.entry e) }
{
    match mode {
        ParserMode::LanguageIdentifier => Ok(joined_parts(read_language(iter)?, None)),
        ParserMode::Locale => read_tag(iter),
        ParserMode::Partial => {
            let (parts, _) = read_front(iter)?;
            Ok(joined_parts(parts, None))
        }
    }
}

/// The parts of these bytes, as `parse_locale_with_single_variant_single_keyword_unicode_extension_from_iter`.
///
/// `en-US-u-nu-thai` in mode `Locale` gives `en`, no script, `US`, no variant, and `nu` with `thai`. The errors are
/// those of that call. It does not allocate.
pub fn parse_locale_with_single_variant_single_keyword_unicode_keyword_extension(
    code_units: &[u8],
    mode: ParserMode,
) -> Result<SingleParts, ParseError>
    ensures { MatchResult result (λ parts. MeansSingleInMode mode (pieces code_units.now) (single parts))
        (λ e. HasSingleFaultInMode mode (pieces code_units.now) e) }
{
    parse_locale_with_single_variant_single_keyword_unicode_extension_from_iter(
        SubtagIterator::new(code_units),
        mode,
    )
}

/// The language part of these bytes with at most one variant: what
/// `parse_locale_with_single_variant_single_keyword_unicode_keyword_extension` reads, without the keyword.
///
/// `de-DE-1996-u-nu-latn` in mode `Locale` gives `de`, no script, `DE` and `1996`. The errors are those of that call,
/// also for a second keyword. It does not allocate.
pub fn parse_language_identifier_with_single_variant(
    code_units: &[u8],
    mode: ParserMode,
) -> Result<(Language, Option<Script>, Option<Region>, Option<Variant>), ParseError>
    ensures { MatchResult result (MeansPartsInMode mode (pieces code_units.now))
        (λ e. HasSingleFaultInMode mode (pieces code_units.now) e) }
{
    let (language, script, region, variant, _) =
        parse_locale_with_single_variant_single_keyword_unicode_keyword_extension(
            code_units, mode,
        )?;
    Ok((language, script, region, variant))
}
