//! The normal text of a text that is a tag, and whether a text means a given locale.

ghost use Rattle.std.specs.Prelude.{◌≡◌, ◌≢◌, ◌↔◌, ◌⊎◌, false, IsTrue, IsOk, IfOk, IfErr};
ghost use Rattle.std.specs.Result.{IsErrOf};
ghost use Rattle.icu_locale_core_grammar.specs.declared.error.ParseError.{ParseError};
ghost use Rattle.icu_locale_core_grammar.specs.Pieces.{pieces};
ghost use Rattle.icu_locale_core_grammar.specs.Meaning.{TagMeaning, MeansTag};
ghost use Rattle.icu_locale_core_grammar.specs.FaultyPiece.{HasFault};
ghost use Rattle.icu_locale_core_grammar.specs.NormalText.{normal_text};
ghost use Rattle.icu_locale_core_langid.specs.NormalizedText.{IsNormalized};
ghost use Rattle.icu_locale_core_locale.specs.Allocation.{tag_may_grow};

use crate::locale::Locale;
use icu_locale_core_grammar::ParseError;
use icu_locale_core_langid::text_or_input;
use std::alloc::{AllocError, Global};
use std::borrow::CowStr;

impl Locale {
    /// The normal text of a text, borrowed where the text is normal.
    ///
    /// `EN-us-u-NU-Thai` gives a new `en-US-u-nu-thai`, which gives itself. The errors are those of `try_from_str`. It
    /// allocates only for variants, extensions and a new text.
    pub fn normalize(alloc: Global, input: &str) -> Result<CowStr<'_, Global>, ParseError>
        ensures value { IfOk result
            (λ text. (m : TagMeaning) × MeansTag (pieces input.now) m × IsNormalized input.now (normal_text m) text) }
        ensures fault { IfErr result (λ e. (e ≡ ParseError.Memory) ⊎ HasFault MeansTag (pieces input.now) e) }
        ensures room { tag_may_grow (pieces input.now) ≡ false → IsErrOf result ParseError.Memory
            → (m : TagMeaning) × MeansTag (pieces input.now) m × (input.now ≢ normal_text m) }
    {
        Self::normalize_utf8(alloc, input.as_bytes())
    }

    /// The normal text of the bytes of a text, as `normalize`: `EN-u-NU-Thai` gives a new `en-u-nu-thai`. The errors
    /// are those of `normalize`; it allocates where that does.
    pub fn normalize_utf8(alloc: Global, input: &[u8]) -> Result<CowStr<'_, Global>, ParseError>
        ensures value { IfOk result
            (λ text. (m : TagMeaning) × MeansTag (pieces input.now) m × IsNormalized input.now (normal_text m) text) }
        ensures fault { IfErr result (λ e. (e ≡ ParseError.Memory) ⊎ HasFault MeansTag (pieces input.now) e) }
        ensures room { tag_may_grow (pieces input.now) ≡ false → IsErrOf result ParseError.Memory
            → (m : TagMeaning) × MeansTag (pieces input.now) m × (input.now ≢ normal_text m) }
    {
        let locale = Self::try_from_utf8(alloc, input)?;
        text_or_input(alloc, &locale, input)
    }

    /// Whether the text reads as this locale: `EN-u-NU-Thai` does as `en-u-nu-thai`, and `en` does not.
    ///
    /// A text that is no tag does not. `AllocError`: out of memory. It allocates only where `try_from_str` does.
    pub fn normalizing_eq(&self, alloc: Global, other: &str) -> Result<bool, AllocError>
        ensures value { IfOk result (λ same. IsTrue same ↔ MeansTag (pieces other.now) self.now) }
        ensures room { tag_may_grow (pieces other.now) ≡ false → IsOk result }
    {
        match Self::try_from_str(alloc, other) {
            Ok(locale) => Ok(locale == *self),
            Err(error) => match error {
                ParseError::Memory => Err(AllocError),
                _ => Ok(false),
            },
        }
    }
}
