//! The locale: its parts, and how it is read.

ghost use Rattle.std.specs.Prelude.{◌≡◌, ◌↔◌, ◌⊎◌, false, [], None, IsOk, IfOk, IfErr, IsTrue};
ghost use Rattle.std.specs.Result.{IsErrOf};
ghost use Rattle.icu_locale_core_grammar.specs.declared.error.ParseError.{ParseError};
ghost use Rattle.icu_locale_core_grammar.specs.Pieces.{pieces};
ghost use Rattle.icu_locale_core_grammar.specs.Meaning.{MeansTag};
ghost use Rattle.icu_locale_core_grammar.specs.FaultyPiece.{HasFault};
ghost use Rattle.icu_locale_core_grammar.specs.PreferenceChanges.{unknown_language};
ghost use Rattle.icu_locale_core_langid.specs.Parts.{with_parts};
ghost use Rattle.icu_locale_core_locale.specs.LocaleValue.{language_alone, unknown_locale};
ghost use Rattle.icu_locale_core_locale.specs.SameLocale.{extensions_of};
ghost use Rattle.icu_locale_core_extensions.specs.ExtensionsValue.{nothing};
ghost use Rattle.icu_locale_core_locale.specs.Allocation.{tag_may_grow};

use crate::parser::parse_locale;
use icu_locale_core_extensions::Extensions;
use icu_locale_core_grammar::ParseError;
use icu_locale_core_langid::LanguageIdentifier;
use icu_locale_core_subtags::{Language, Region, Script};
use std::alloc::{AllocError, Global};
use std::marker::Model;

/// A language identifier and extensions: `en-US-u-nu-thai`. Source: UTS 35, section 3.2, "Unicode Locale Identifier".
#[derive(Drop)]
pub struct Locale {
    /// The language, script, region and variants.
    pub id: LanguageIdentifier,
    /// The extensions.
    pub extensions: Extensions,
}

impl Model for Locale {
    ghost use Rattle.icu_locale_core_grammar.specs.Meaning.{TagMeaning};

    ghost Value = { TagMeaning };

    ghost view = { λ l. record { language = l.id; extensions = l.extensions.blocks; private_use = l.extensions.own } };
}

impl Locale {
    /// The language `und`, and nothing else. It does not allocate.
    pub fn unknown(alloc: Global) -> Self
        ensures { result ≡ unknown_locale }
    {
        Self::from_id(alloc, LanguageIdentifier::unknown(alloc))
    }

    /// The locale of this language identifier, without an extension: of `en-US` it is `en-US`. It does not allocate.
    pub fn from_id(alloc: Global, id: LanguageIdentifier) -> Self
        ensures { result ≡ language_alone id }
    {
        Locale {
            id,
            extensions: Extensions::new(alloc),
        }
    }

    /// The locale of only this language: of `en` it is `en`. It does not allocate.
    pub fn from_language(alloc: Global, language: Language) -> Self
        ensures { result ≡ language_alone (with_parts language None None []) }
    {
        Self::from_id(alloc, LanguageIdentifier::from_language(alloc, language))
    }

    /// The language `und` with this script, or only `und`: of `Latn` it is `und-Latn`. It does not allocate.
    pub fn from_script(alloc: Global, script: Option<Script>) -> Self
        ensures { result ≡ language_alone (with_parts unknown_language script None []) }
    {
        Self::from_id(alloc, LanguageIdentifier::from_script(alloc, script))
    }

    /// The language `und` with this region, or only `und`: of `US` it is `und-US`. It does not allocate.
    pub fn from_region(alloc: Global, region: Option<Region>) -> Self
        ensures { result ≡ language_alone (with_parts unknown_language None region []) }
    {
        Self::from_id(alloc, LanguageIdentifier::from_region(alloc, region))
    }

    /// The locale of these three parts: of `en`, no script and `US` it is `en-US`. It does not allocate.
    pub fn from_triple(alloc: Global, triple: (Language, Option<Script>, Option<Region>)) -> Self
        ensures { result ≡ language_alone (with_parts triple.0 triple.1 triple.2 []) }
    {
        Self::from_id(alloc, LanguageIdentifier::from_triple(alloc, triple))
    }

    /// Whether this is the language `und`, and nothing else: false of `und-x-a`. It does not allocate.
    pub fn is_unknown(&self) -> bool
        ensures { IsTrue result ↔ (self.now ≡ unknown_locale) }
    {
        self.id.is_unknown() && self.extensions.is_empty()
    }

    /// A copy: of `en-u-nu-thai` it is `en-u-nu-thai`. `AllocError`: out of memory. It does not allocate where there is
    /// no variant and no extension.
    pub fn try_clone(&self) -> Result<Self, AllocError>
        ensures succeeds { self.now.language.variants ≡ [] → extensions_of self.now ≡ nothing → IsOk result }
        ensures value { IfOk result (λ locale. locale ≡ self.now) }
    {
        let id = self.id.try_clone()?;
        let extensions = self.extensions.try_clone()?;
        Ok(Locale { id, extensions })
    }

    /// The locale that the tag means, in any case: `EN-u-NU-Thai` is `en-u-nu-thai`.
    ///
    /// `InvalidLanguage`, `InvalidSubtag`, `InvalidExtension` and `DuplicatedExtension` name the place of the first
    /// piece that no tag has there, or of the end. `Memory`: out of memory; it allocates only for variants and
    /// extensions. Source: UTS 35, section 3.2.
    pub fn try_from_str(alloc: Global, s: &str) -> Result<Self, ParseError>
        ensures value { IfOk result (MeansTag (pieces s.now)) }
        ensures fault { IfErr result (λ e. (e ≡ ParseError.Memory) ⊎ HasFault MeansTag (pieces s.now) e) }
        ensures room { tag_may_grow (pieces s.now) ≡ false → ¬ (IsErrOf result ParseError.Memory) }
    {
        Self::try_from_utf8(alloc, s.as_bytes())
    }

    /// The locale that these bytes mean, as `try_from_str`: `EN-u-NU-Thai` is `en-u-nu-thai`. The errors are those of
    /// `try_from_str`; it allocates where that does.
    pub fn try_from_utf8(alloc: Global, code_units: &[u8]) -> Result<Self, ParseError>
        ensures value { IfOk result (MeansTag (pieces code_units.now)) }
        ensures fault { IfErr result (λ e. (e ≡ ParseError.Memory) ⊎ HasFault MeansTag (pieces code_units.now) e) }
        ensures room { tag_may_grow (pieces code_units.now) ≡ false → ¬ (IsErrOf result ParseError.Memory) }
    {
        parse_locale(alloc, code_units)
    }
}

impl AsRef<LanguageIdentifier> for Locale {
    /// The language part: of `en-US-u-nu-thai` it is `en-US`.
    fn as_ref(&self) -> &LanguageIdentifier
        ensures { result.now ≡ self.now.language }
    {
        &self.id
    }
}
