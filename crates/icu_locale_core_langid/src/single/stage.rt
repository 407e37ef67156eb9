//! The stages of a tag of at most one variant and one keyword.

ghost use Rattle.std.specs.Prelude.{◌≡◌, Some, None, MatchResult, option_map};
ghost use Rattle.icu_locale_core_grammar.specs.Subtags.{is_true};
ghost use Rattle.icu_locale_core_grammar.specs.SingleVariant.{InLanguage, AfterUnicode, AfterKey, single_ends, single_fault};
ghost use Rattle.icu_locale_core_langid.specs.OneVariant.{parts_id, one_variant_after};
ghost use Rattle.icu_locale_core_langid.specs.SingleModes.{single};
ghost use Rattle.icu_locale_core_langid.specs.SingleStageView.{stage_view, GoesOn};

use crate::one_variant::{OneVariantParts, one_variant_step};
use crate::single::parts::{SingleParts, joined_parts};
use icu_locale_core_grammar::ParseError;
use icu_locale_core_subtags::unicode::Key;
use icu_locale_core_subtags::{Subtag, is_letter, is_one_character, value_subtag};

// How far such a tag is read.
#[derive(Clone, Copy)]
pub(crate) enum Stage {
    // In the language part, `None` before its first piece.
    InLanguage(Option<OneVariantParts>),
    // After `u`.
    AfterUnicode(OneVariantParts),
    // After the key.
    AfterKey(OneVariantParts, Key),
    // After a piece of the value, `None` where it is `true`.
    AfterValue(OneVariantParts, Key, Option<Subtag>),
}

// Whether the piece is `true`, in any case.
fn says_true(piece: &[u8]) -> bool
    ensures { result ≡ is_true piece.now }
{
    piece.eq_ignore_ascii_case(b"true")
}

// After a language part that does not go on with the piece: `u`.
#[tactic(auto, using(crate::proofs::SingleStageLemmas::unicode_opened, crate::proofs::SingleStageLemmas::nothing_opened))]
fn behind_language(parts: OneVariantParts, piece: &[u8]) -> Result<Stage, ParseError>
    ensures { one_variant_after (Some (parts_id parts)) piece.now ≡ None
        → GoesOn (InLanguage (Some (parts_id parts))) piece.now result }
{
    if is_letter(piece, b'u') {
        Ok(Stage::AfterUnicode(parts))
    } else if is_one_character(piece) {
        Err(ParseError::InvalidExtension)
    } else {
        Err(ParseError::InvalidSubtag)
    }
}

// In the language part: one more piece of it, or what follows it.
#[tactic(auto, using(crate::proofs::SingleStageLemmas::part_taken, crate::proofs::SingleStageLemmas::no_language))]
fn in_language(front: Option<OneVariantParts>, piece: &[u8]) -> Result<Stage, ParseError>
    ensures { GoesOn (InLanguage (option_map parts_id front)) piece.now result }
{
    match one_variant_step(&front, piece) {
        Some(next) => Ok(Stage::InLanguage(Some(next))),
        None => match front {
            Some(parts) => behind_language(parts, piece),
            None => Err(ParseError::InvalidLanguage),
        },
    }
}

// After `u`: a key.
#[tactic(auto, unfolding(icu_locale_core_grammar::specs::SingleVariant::single_after))]
fn after_unicode(parts: OneVariantParts, piece: &[u8]) -> Result<Stage, ParseError>
    ensures { GoesOn (AfterUnicode (parts_id parts)) piece.now result }
{
    match Key::try_from_utf8(piece) {
        Ok(key) => Ok(Stage::AfterKey(parts, key)),
        Err(_) => Err(ParseError::InvalidExtension),
    }
}

// After a key: a piece of its value, of which `true` is left out.
#[tactic(auto, unfolding(icu_locale_core_grammar::specs::SingleVariant::single_after))]
fn after_key(parts: OneVariantParts, key: Key, piece: &[u8]) -> Result<Stage, ParseError>
    ensures { GoesOn (AfterKey (parts_id parts) key) piece.now result }
{
    match value_subtag(piece) {
        None => Err(ParseError::InvalidExtension),
        Some(_) if says_true(piece) => Ok(Stage::AfterValue(parts, key, None)),
        Some(subtag) => Ok(Stage::AfterValue(parts, key, Some(subtag))),
    }
}

// The stage after one more piece, or the fault there.
#[tactic(auto, unfolding(icu_locale_core_grammar::specs::SingleVariant::single_after))]
pub(crate) fn stage_after(stage: Stage, piece: &[u8]) -> Result<Stage, ParseError>
    ensures { GoesOn (stage_view stage) piece.now result }
{
    match stage {
        Stage::InLanguage(front) => in_language(front, piece),
        Stage::AfterUnicode(parts) => after_unicode(parts, piece),
        Stage::AfterKey(parts, key) => after_key(parts, key, piece),
        Stage::AfterValue(_, _, _) => Err(ParseError::InvalidExtension),
    }
}

// What was read where the pieces end, or the fault there.
pub(crate) fn parts_at_end(stage: Stage) -> Result<SingleParts, ParseError>
    ensures { MatchResult result (λ parts. single_ends (stage_view stage) ≡ Some (single parts))
        (λ e. (single_ends (stage_view stage) ≡ None) × (e ≡ single_fault (stage_view stage) None)) }
{
    match stage {
        Stage::InLanguage(None) => Err(ParseError::InvalidLanguage),
        Stage::InLanguage(Some(parts)) => Ok(joined_parts(parts, None)),
        Stage::AfterUnicode(_) => Err(ParseError::InvalidExtension),
        Stage::AfterKey(parts, key) => Ok(joined_parts(parts, Some((key, None)))),
        Stage::AfterValue(parts, key, value) => Ok(joined_parts(parts, Some((key, value)))),
    }
}
