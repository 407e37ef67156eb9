//! The heads of both extensions: attributes of `u`, a language part of `t`.

ghost use Rattle.std.specs.Prelude.{◌≡◌};
ghost use Rattle.icu_locale_core_grammar.specs.Subtags.{is_attribute};
ghost use Rattle.icu_locale_core_grammar.specs.TagStages.{attributes_after, language_after as language_stage_after};
ghost use Rattle.icu_locale_core_langid.specs.Allocation.{grows_at};

use icu_locale_core_keywords_fields::HeadReader;
use icu_locale_core_langid::{LanguageIdentifier, LanguageStage, language_after};
use icu_locale_core_subtag_lists::GrowingSet;
use icu_locale_core_subtags::Step;
use icu_locale_core_subtags::unicode::{Attribute, AttributeRule};
use std::alloc::{AllocError, Global};

/// The attributes before the keywords of `u`.
pub struct AttributesHead;

impl HeadReader for AttributesHead {
    type Stage = GrowingSet<AttributeRule>;

    ghost step = { attributes_after };

    ghost grows = { λ s p. is_attribute p };

    fn after(
        _alloc: Global,
        mut stage: GrowingSet<AttributeRule>,
        piece: &[u8],
    ) -> Result<Step<GrowingSet<AttributeRule>>, AllocError> {
        match Attribute::try_from_utf8(piece) {
            Ok(attribute) => {
                stage.push(attribute)?;
                Ok(Step::Taken(stage))
            }
            Err(_) => Ok(Step::Refused(stage)),
        }
    }
}

/// The language part, if any, before the fields of `t`.
pub struct LanguageHead;

impl HeadReader for LanguageHead {
    type Stage = Option<LanguageStage>;

    ghost step = { language_stage_after };

    ghost grows = { grows_at };

    fn after(
        alloc: Global,
        stage: Option<LanguageStage>,
        piece: &[u8],
    ) -> Result<Step<Option<LanguageStage>>, AllocError> {
        language_after(alloc, stage, piece)
    }
}

// The language part that was read, if there is one. It does not allocate.
pub(crate) fn settled_language(stage: Option<LanguageStage>) -> Option<LanguageIdentifier>
    ensures { result ≡ stage }
{
    match stage {
        Some(stage) => Some(stage.settled()),
        None => None,
    }
}
