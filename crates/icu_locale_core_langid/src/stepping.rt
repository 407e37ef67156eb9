//! A language part that is read piece by piece.

ghost use Rattle.std.specs.Prelude.{◌≡◌, false, Some, None, Option, IfOk, IsOk, if◌then◌else◌};
ghost use Rattle.icu_locale_core_grammar.specs.Subtags.{title, upper, lower, is_variant};
ghost use Rattle.icu_locale_core_grammar.specs.TagStages.{fits_script, fits_region, fits_variant, with_piece, language_after as stage_after};
ghost use Rattle.icu_locale_core_langid.specs.LanguageStep.{PutsPiece};
ghost use Rattle.icu_locale_core_langid.specs.Allocation.{grows_at};
ghost use Rattle.icu_locale_core_subtags.specs.Steps.{IsStep};

use crate::language_stage::LanguageStage;
use icu_locale_core_subtags::{Language, Region, Script, Step, Variant};
use std::alloc::{AllocError, Global};

// The script that the piece is, right after the language.
fn fitting_script(id: &LanguageStage, piece: &[u8]) -> Option<Script>
    ensures { result ≡ (if fits_script id.now piece.now then Some (title piece.now) else None) }
{
    if id.script.is_some() || id.region.is_some() || !id.variants.is_empty() {
        return None;
    }
    match Script::try_from_utf8(piece) {
        Ok(script) => Some(script),
        Err(_) => None,
    }
}

// The region that the piece is, before any variant.
fn fitting_region(id: &LanguageStage, piece: &[u8]) -> Option<Region>
    ensures { result ≡ (if fits_region id.now piece.now then Some (upper piece.now) else None) }
{
    if id.region.is_some() || !id.variants.is_empty() {
        return None;
    }
    match Region::try_from_utf8(piece) {
        Ok(region) => Some(region),
        Err(_) => None,
    }
}

// The variant that the piece is, where it is not there yet.
fn fitting_variant(id: &LanguageStage, piece: &[u8]) -> Option<Variant>
    ensures { result ≡ (if fits_variant id.now piece.now then Some (lower piece.now) else None) }
{
    match Variant::try_from_utf8(piece) {
        Ok(variant) => {
            if id.variants.contains(&variant) {
                None
            } else {
                Some(variant)
            }
        }
        Err(_) => None,
    }
}

// Puts one more piece into the stage, and says whether it fits; where it does not, the stage stays.
#[tactic(auto, unfolding(icu_locale_core_grammar::specs::TagStages::with_piece))]
pub(crate) fn put_piece(id: &mut LanguageStage, piece: &[u8]) -> Result<bool, AllocError>
    ensures step { IfOk result (PutsPiece id.old piece.now id.new) }
    ensures room { fits_variant id.old piece.now ≡ false → IsOk result }
{
    if let Some(script) = fitting_script(id, piece) {
        id.script = Some(script);
        return Ok(true);
    }
    if let Some(region) = fitting_region(id, piece) {
        id.region = Some(region);
        return Ok(true);
    }
    match fitting_variant(id, piece) {
        Some(variant) => {
            id.variants.push(variant)?;
            Ok(true)
        }
        None => Ok(false),
    }
}

// The stage with one more piece.
fn piece_after(id: LanguageStage, piece: &[u8]) -> Result<Step<LanguageStage>, AllocError>
    ensures step { IfOk result (IsStep with_piece (λ i. i) id piece.now) }
    ensures room { fits_variant id piece.now ≡ false → IsOk result }
{
    let mut id = id;
    if put_piece(&mut id, piece)? {
        Ok(Step::Taken(id))
    } else {
        Ok(Step::Refused(id))
    }
}

/// The language part with one more piece, `None` before its first piece; a piece that does not fit leaves it as it was.
///
/// After `en` the piece `us` gives `en-US`, and the piece `u` does not fit. `AllocError`: out of memory. It allocates
/// only for one more variant.
pub fn language_after(
    alloc: Global,
    language: Option<LanguageStage>,
    piece: &[u8],
) -> Result<Step<Option<LanguageStage>>, AllocError>
    ensures step { IfOk result (IsStep stage_after (λ l. l) language piece.now) }
    ensures room { grows_at language piece.now ≡ false → IsOk result }
{
    match language {
        None => match Language::try_from_utf8(piece) {
            Ok(language) => Ok(Step::Taken(Some(LanguageStage::from_language(alloc, language)))),
            Err(_) => Ok(Step::Refused(None)),
        },
        Some(id) => match piece_after(id, piece)? {
            Step::Taken(id) => Ok(Step::Taken(Some(id))),
            Step::Refused(id) => Ok(Step::Refused(Some(id))),
        },
    }
}
