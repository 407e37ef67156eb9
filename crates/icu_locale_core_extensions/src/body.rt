//! The pieces after a singleton, read one at a time.

ghost use Rattle.std.specs.Prelude.{◌≡◌, false, option_map, IfOk, IfSome, IsOk};
ghost use Rattle.icu_locale_core_grammar.specs.Subtags.{lower};
ghost use Rattle.icu_locale_core_grammar.specs.TagStages.{body_after as stage_after, body_ends, opens};
ghost use Rattle.icu_locale_core_keywords_fields.specs.Steps.{IsStep};
ghost use Rattle.icu_locale_core_extensions.specs.BodyView.{body_view, body_key, is_other_part, part_view, KeepsKey, HasKey};
ghost use Rattle.icu_locale_core_extensions.specs.Allocation.{body_grows_at, body_keeps};

use crate::head::{AttributesHead, LanguageHead, settled_language};
use crate::other::{Other, other_after};
use crate::singleton::OtherSingleton;
use crate::transform::Transform;
use crate::unicode::Unicode;
use icu_locale_core_keywords_fields::{HeadedStage, headed_after, headed_finish};
use icu_locale_core_langid::LanguageStage;
use icu_locale_core_subtag_lists::GrowingSet;
use icu_locale_core_subtags::{Step, is_letter, transform, unicode};
use std::alloc::{AllocError, Global};

/// How far the pieces after a singleton are read.
#[derive(Drop)]
pub enum BodyStage {
    /// After `u`.
    InUnicode(HeadedStage<GrowingSet<unicode::AttributeRule>, unicode::KeyRule>),
    /// After `t`.
    InTransform(HeadedStage<Option<LanguageStage>, transform::KeyRule>),
    /// After any other singleton but `x`.
    InOther(Other),
}

/// An extension that was read.
#[derive(Drop)]
pub enum Part {
    /// The extension `u`.
    Unicode(Unicode),
    /// The extension `t`.
    Transform(Transform),
    /// Any other.
    Other(Other),
}

/// The stage after a singleton, before the first piece; `None` where the piece is no singleton, or is `x`. It does not
/// allocate.
pub fn opened_body(alloc: Global, singleton: &[u8]) -> Option<BodyStage>
    ensures stage { option_map body_view result ≡ opens singleton.now }
    ensures key { IfSome result (λ b. body_key b ≡ lower singleton.now) }
{
    if is_letter(singleton, b'u') {
        return Some(BodyStage::InUnicode(HeadedStage::InHead(GrowingSet::new(alloc))));
    }
    if is_letter(singleton, b't') {
        return Some(BodyStage::InTransform(HeadedStage::InHead(None)));
    }
    match OtherSingleton::try_from_utf8(singleton) {
        Ok(singleton) => Some(BodyStage::InOther(Other::opened(alloc, singleton))),
        Err(_) => None,
    }
}

/// The stage after one more piece; a piece that does not fit leaves it as it was. `AllocError`: out of memory. A first
/// key and a piece that does not fit do not allocate.
#[tactic(auto, unfolding(icu_locale_core_grammar::specs::TagStages::body_after))]
pub fn body_after(
    alloc: Global,
    stage: BodyStage,
    piece: &[u8],
) -> Result<Step<BodyStage>, AllocError>
    ensures step { IfOk result (IsStep stage_after body_view (body_view stage) piece.now) }
    ensures key { IfOk result (KeepsKey (body_key stage)) }
    ensures room { body_grows_at (body_view stage) piece.now ≡ false → IsOk result }
{
    match stage {
        BodyStage::InUnicode(stage) => match headed_after::<AttributesHead, unicode::KeyRule>(
            alloc, stage, piece,
        )? {
            Step::Taken(stage) => Ok(Step::Taken(BodyStage::InUnicode(stage))),
            Step::Refused(stage) => Ok(Step::Refused(BodyStage::InUnicode(stage))),
        },
        BodyStage::InTransform(stage) => match headed_after::<LanguageHead, transform::KeyRule>(
            alloc, stage, piece,
        )? {
            Step::Taken(stage) => Ok(Step::Taken(BodyStage::InTransform(stage))),
            Step::Refused(stage) => Ok(Step::Refused(BodyStage::InTransform(stage))),
        },
        BodyStage::InOther(other) => match other_after(other, piece)? {
            Step::Taken(other) => Ok(Step::Taken(BodyStage::InOther(other))),
            Step::Refused(other) => Ok(Step::Refused(BodyStage::InOther(other))),
        },
    }
}

/// The extension that was read; `None` where its last entry needs a value and has none. `AllocError`: out of memory. Of
/// `u` and `t` it allocates only for a last entry.
pub fn body_finish(alloc: Global, stage: BodyStage) -> Result<Option<Part>, AllocError>
    ensures part { IfOk result (λ part. option_map part_view part ≡ body_ends (body_view stage)) }
    ensures key { IfOk result (λ part. IfSome part (HasKey (body_key stage))) }
    ensures kind { body_keeps (body_view stage) ≡ false
        → IfOk result (λ part. IfSome part (λ p. is_other_part p ≡ false)) }
    ensures room { body_keeps (body_view stage) ≡ false → IsOk result }
{
    match stage {
        BodyStage::InUnicode(stage) => match headed_finish(alloc, stage)? {
            Some((attributes, keywords)) => Ok(Some(Part::Unicode(Unicode {
                keywords,
                attributes: attributes.settled(),
            }))),
            None => Ok(None),
        },
        BodyStage::InTransform(stage) => match headed_finish(alloc, stage)? {
            Some((lang, fields)) => Ok(Some(Part::Transform(Transform {
                lang: settled_language(lang),
                fields,
            }))),
            None => Ok(None),
        },
        BodyStage::InOther(other) => Ok(Some(Part::Other(other))),
    }
}
