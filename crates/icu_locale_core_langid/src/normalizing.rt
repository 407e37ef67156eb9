//! The normal text of a text that is a language identifier.

ghost use Rattle.std.specs.Prelude.{◌≡◌, ◌≢◌, ◌⊎◌, false, IfOk, IfErr, IsOk, IsUtf8};
ghost use Rattle.std.specs.Result.{IsErrOf};
ghost use Rattle.writeable.specs.AnnotatedText.{text_of};
ghost use Rattle.icu_locale_core_grammar.specs.declared.error.ParseError.{ParseError};
ghost use Rattle.icu_locale_core_grammar.specs.Pieces.{pieces};
ghost use Rattle.icu_locale_core_grammar.specs.LanguagePart.{LanguageId, MeansLanguage};
ghost use Rattle.icu_locale_core_grammar.specs.FaultyPiece.{HasFault};
ghost use Rattle.icu_locale_core_langid.specs.LanguageText.{language_text};
ghost use Rattle.icu_locale_core_langid.specs.NormalizedText.{IsNormalized};
ghost use Rattle.icu_locale_core_langid.specs.Allocation.{may_grow};

use crate::language_identifier::LanguageIdentifier;
use icu_locale_core_grammar::ParseError;
use std::alloc::Global;
use std::borrow::CowStr;
use std::str;
use writeable::{Writeable, strict_cmp};

/// The text of the value: these bytes themselves where they are it, else a new text.
///
/// The value `en-US` gives a new text for `EN-us`, and borrows `en-US`. `Memory`, the only error: out of memory. It
/// allocates only for a new text.
pub fn text_or_input<'a, T: Writeable>(
    alloc: Global,
    value: &T,
    input: &'a [u8],
) -> Result<CowStr<'a, Global>, ParseError>
    ensures text { IfOk result (IsNormalized input.now (text_of (T.events value.now))) }
    ensures fault { IfErr result (λ e. e ≡ ParseError.Memory) }
    ensures room { IsUtf8 input.now → input.now ≡ text_of (T.events value.now) → IsOk result }
{
    if strict_cmp(value, input).is_eq() {
        if let Ok(text) = str::from_utf8(input) {
            return Ok(CowStr::Borrowed(text));
        }
    }
    match value.write_to_string(alloc) {
        Ok(text) => Ok(CowStr::Owned(text)),
        Err(_) => Err(ParseError::Memory),
    }
}

impl LanguageIdentifier {
    /// The normal text of a text, borrowed where the text is normal.
    ///
    /// `EN-us` gives a new `en-US`, and `en-US` gives itself. The errors are those of `try_from_str`. It allocates only
    /// for variants and a new text.
    pub fn normalize(alloc: Global, input: &str) -> Result<CowStr<'_, Global>, ParseError>
        ensures value { IfOk result
            (λ text. (id : LanguageId) × MeansLanguage (pieces input.now) id
            × IsNormalized input.now (language_text id) text) }
        ensures fault { IfErr result (λ e. (e ≡ ParseError.Memory) ⊎ HasFault MeansLanguage (pieces input.now) e) }
        ensures room { may_grow (pieces input.now) ≡ false → IsErrOf result ParseError.Memory
            → (id : LanguageId) × MeansLanguage (pieces input.now) id × (input.now ≢ language_text id) }
    {
        Self::normalize_utf8(alloc, input.as_bytes())
    }

    /// The normal text of the bytes of a text, as `normalize`: `EN-us` gives a new `en-US`. The errors are those of
    /// `normalize`; it allocates where that does.
    pub fn normalize_utf8(alloc: Global, input: &[u8]) -> Result<CowStr<'_, Global>, ParseError>
        ensures value { IfOk result
            (λ text. (id : LanguageId) × MeansLanguage (pieces input.now) id
            × IsNormalized input.now (language_text id) text) }
        ensures fault { IfErr result (λ e. (e ≡ ParseError.Memory) ⊎ HasFault MeansLanguage (pieces input.now) e) }
        ensures room { may_grow (pieces input.now) ≡ false → IsErrOf result ParseError.Memory
            → (id : LanguageId) × MeansLanguage (pieces input.now) id × (input.now ≢ language_text id) }
    {
        let id = Self::try_from_utf8(alloc, input)?;
        text_or_input(alloc, &id, input)
    }
}
