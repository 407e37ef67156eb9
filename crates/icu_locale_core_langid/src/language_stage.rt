//! A language part that is being read.

ghost use Rattle.std.specs.Prelude.{◌≡◌, [], None};
ghost use Rattle.icu_locale_core_langid.specs.Parts.{with_parts};

use crate::language_identifier::LanguageIdentifier;
use icu_locale_core_subtag_lists::GrowingSet;
use icu_locale_core_subtags::{Language, Region, Script, VariantRule};
use std::alloc::Global;
use std::marker::Model;

/// A language part that is being read: what its pieces so far mean. `settled` gives the identifier.
#[derive(Drop)]
pub struct LanguageStage {
    // The language.
    pub(crate) language: Language,
    // The script, where one has come.
    pub(crate) script: Option<Script>,
    // The region, where one has come.
    pub(crate) region: Option<Region>,
    // The variants that have come.
    pub(crate) variants: GrowingSet<VariantRule>,
}

impl Model for LanguageStage {
    ghost use Rattle.icu_locale_core_grammar.specs.LanguagePart.{LanguageId};

    ghost Value = { LanguageId };

    ghost view = { λ a. record {
      language = a.language;
      script = a.script;
      region = a.region;
      variants = a.variants;
    } };

    ghost inverse = { λ id. record {
      language = id.language;
      script = id.script;
      region = id.region;
      variants = id.variants;
    } };
}

impl LanguageStage {
    /// The stage after this language: of `en` it is `en`. It does not allocate.
    pub fn from_language(alloc: Global, language: Language) -> Self
        ensures { result ≡ with_parts language None None [] }
    {
        LanguageStage {
            language,
            script: None,
            region: None,
            variants: GrowingSet::new(alloc),
        }
    }

    /// The identifier of the pieces so far: after `en`, `us` it is `en-US`. It does not allocate.
    pub fn settled(self) -> LanguageIdentifier
        ensures { result ≡ self }
    {
        let LanguageStage {
            language,
            script,
            region,
            variants,
        } = self;
        LanguageIdentifier {
            language,
            script,
            region,
            variants: variants.settled(),
        }
    }
}
