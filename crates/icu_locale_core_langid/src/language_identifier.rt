//! The language identifier: its parts, and how it is made from them.

ghost use Rattle.std.specs.Prelude.{◌≡◌, ◌↔◌, [], None, Some, codes, IsTrue, IsOk, IfOk};
ghost use Rattle.icu_locale_core_grammar.specs.PreferenceChanges.{unknown_language};
ghost use Rattle.icu_locale_core_langid.specs.Parts.{with_parts};

use icu_locale_core_subtag_lists::Variants;
use icu_locale_core_subtags::{Language, Region, Script};
use std::alloc::{AllocError, Global};
use std::marker::Model;

/// A language, a script or none, a region or none, and a set of variants.
///
/// `en-latn-us-fonipa-1996` is the language `en`, the script `Latn`, the region `US` and the variants `1996` and
/// `fonipa`. Source: UTS 35, section 3.1, "Unicode Language Identifier".
#[derive(Drop)]
pub struct LanguageIdentifier {
    /// The language; `und` where it is not known.
    pub language: Language,
    /// The script, where one is named.
    pub script: Option<Script>,
    /// The region, where one is named.
    pub region: Option<Region>,
    /// The variants, in byte order.
    pub variants: Variants,
}

impl Model for LanguageIdentifier {
    ghost use Rattle.icu_locale_core_grammar.specs.LanguagePart.{LanguageId};

    ghost Value = { LanguageId };

    ghost view = { λ a. record {
      language = a.language;
      script = a.script;
      region = a.region;
      variants = a.variants;
    } };

    ghost inverse = { λ id. record {
      language = id.language;
      script = id.script;
      region = id.region;
      variants = id.variants;
    } };
}

impl LanguageIdentifier {
    /// The identifier of these three parts, without a variant: of `en`, no script and `US` it is `en-US`. It does not
    /// allocate.
    pub fn from_triple(alloc: Global, triple: (Language, Option<Script>, Option<Region>)) -> Self
        ensures { result ≡ with_parts triple.0 triple.1 triple.2 [] }
    {
        let (language, script, region) = triple;
        LanguageIdentifier {
            language,
            script,
            region,
            variants: Variants::new(alloc),
        }
    }

    /// The identifier of only this language: of `en` it is `en`. It does not allocate.
    pub fn from_language(alloc: Global, language: Language) -> Self
        ensures { result ≡ with_parts language None None [] }
    {
        Self::from_triple(alloc, (language, None, None))
    }

    /// The language `und` with this script, or only `und`: of `Latn` it is `und-Latn`. It does not allocate.
    pub fn from_script(alloc: Global, script: Option<Script>) -> Self
        ensures { result ≡ with_parts unknown_language script None [] }
    {
        Self::from_triple(alloc, (Language::default(), script, None))
    }

    /// The language `und` with this region, or only `und`: of `US` it is `und-US`. It does not allocate.
    pub fn from_region(alloc: Global, region: Option<Region>) -> Self
        ensures { result ≡ with_parts unknown_language None region [] }
    {
        Self::from_triple(alloc, (Language::default(), None, region))
    }

    /// The language `und`, and nothing else: it prints as `und`. It does not allocate.
    pub fn unknown(alloc: Global) -> Self
        ensures { result ≡ with_parts unknown_language None None [] }
    {
        Self::from_language(alloc, Language::default())
    }

    /// Whether this is the language `und`, and nothing else: `und` is, and `und-Latn` is not. It does not allocate.
    pub fn is_unknown(&self) -> bool
        ensures { IsTrue result ↔ (self.now ≡ with_parts unknown_language None None []) }
    {
        self.language.is_unknown()
            && self.script.is_none()
            && self.region.is_none()
            && self.variants.is_empty()
    }

    /// The language, the script and the region: of `en-US-1996` they are `en`, none and `US`. It does not allocate.
    pub fn triple(&self) -> (Language, Option<Script>, Option<Region>)
        ensures language { result.0 ≡ self.now.language }
        ensures script { result.1 ≡ self.now.script }
        ensures region { result.2 ≡ self.now.region }
    {
        (self.language, self.script, self.region)
    }

    /// A copy: of `en-US-1996` it is `en-US-1996`. It allocates where there is a variant. `AllocError`: out of memory,
    /// only there.
    pub fn try_clone(&self) -> Result<Self, AllocError>
        ensures succeeds { self.now.variants ≡ [] → IsOk result }
        ensures value { IfOk result (λ id. id ≡ self.now) }
    {
        let variants = self.variants.try_clone()?;
        Ok(LanguageIdentifier {
            language: self.language,
            script: self.script,
            region: self.region,
            variants,
        })
    }
}

impl AsRef<LanguageIdentifier> for LanguageIdentifier {
    /// The identifier itself: of `en-US` it is `en-US`.
    fn as_ref(&self) -> &LanguageIdentifier
        ensures { result.now ≡ self.now }
    {
        self
    }
}
