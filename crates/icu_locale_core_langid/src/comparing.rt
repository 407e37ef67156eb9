//! Equality, hash and order of language identifiers.

ghost use Rattle.std.specs.Prelude.{◌≡◌};
ghost use Rattle.std.specs.Cmp.{partial_equiv_from_equiv};
ghost use Rattle.writeable.specs.Order.{byte_order};
ghost use Rattle.icu_locale_core_langid.specs.LanguageText.{language_text};
ghost use Rattle.icu_locale_core_grammar.specs.TagOrder.{language_cmp};
ghost use Rattle.icu_locale_core_langid.specs.SameLanguage.{language_fed, same_language};
ghost use Rattle.icu_locale_core_langid.specs.SameLanguageLaws.{same_equiv, same_alike};

use crate::language_identifier::LanguageIdentifier;
use std::cmp::Ordering;
use std::hash::{Hash, Hasher};
use writeable::strict_cmp;

impl PartialEq for LanguageIdentifier {
    ghost eq = { same_language };

    ghost laws = { partial_equiv_from_equiv same_equiv };

    fn eq(&self, other: &Self) -> bool {
        self.language == other.language
            && self.script == other.script
            && self.region == other.region
            && self.variants == other.variants
    }
}

impl Eq for LanguageIdentifier {
    ghost laws = { same_equiv };
}

impl Hash for LanguageIdentifier {
    ghost hash_input = { language_fed };

    ghost respects_eq = { same_alike };

    fn hash<H: Hasher>(&self, state: &mut H) {
        self.language.hash(state);
        self.script.hash(state);
        self.region.hash(state);
        self.variants.hash(state);
    }
}

impl LanguageIdentifier {
    /// The order of two identifiers, part by part: the language, the script, the region, the variants.
    ///
    /// None comes before some: `en` before `en-Latn`, and `en-US` before `en-Latn`. `Equal` exactly where they are
    /// equal. It does not allocate.
    pub fn total_cmp(&self, other: &Self) -> Ordering
        ensures { result ≡ language_cmp self.now other.now }
    {
        self.language
            .cmp(&other.language)
            .then(self.script.cmp(&other.script))
            .then(self.region.cmp(&other.region))
            .then(self.variants.cmp(&other.variants))
    }

    /// The byte order of the text against these bytes; the text is not built, and it does not allocate.
    ///
    /// `en-US` is `Greater` than `en+`, and `Less` than `en-US-x`.
    #[tactic(auto, using(writeable::proofs::AnnotatedTextLemmas::text_of_bytes))]
    pub fn strict_cmp(&self, other: &[u8]) -> Ordering
        ensures { result ≡ byte_order (language_text self.now) other.now }
    {
        strict_cmp(self, other)
    }
}
