//! The JSON form of a language identifier: its text.

ghost use Rattle.std.specs.Prelude.{◌≡◌, ◌⊎◌, false, IfOk, IfErr};
ghost use Rattle.std.specs.Result.{IsErrOf};
ghost use Rattle.serde_json.specs.Data.{string};
ghost use Rattle.serde_json.specs.View.{view};
ghost use Rattle.writeable.specs.AnnotatedText.{text_of};
ghost use Rattle.icu_locale_core_grammar.specs.declared.error.ParseError.{ParseError};
ghost use Rattle.icu_locale_core_grammar.specs.Pieces.{pieces};
ghost use Rattle.icu_locale_core_grammar.specs.LanguagePart.{MeansLanguage};
ghost use Rattle.icu_locale_core_grammar.specs.FaultyPiece.{HasFault};
ghost use Rattle.icu_locale_core_subtags.specs.JsonText.{json_text};
ghost use Rattle.icu_locale_core_langid.specs.LanguageText.{language_text};
ghost use Rattle.icu_locale_core_langid.specs.Allocation.{may_grow};

use crate::language_identifier::LanguageIdentifier;
use icu_locale_core_grammar::ParseError;
use icu_locale_core_subtags::text_of_json;
use serde_json::Value;
use std::alloc::{AllocError, Global};
use writeable::Writeable;

/// The text of the value as a JSON value: `en-US` gives `"en-US"`. It allocates. `AllocError`: out of memory.
pub fn json_of<T: Writeable>(alloc: Global, value: &T) -> Result<Value, AllocError>
    ensures { IfOk result (λ json. view json ≡ string (text_of (T.events value.now))) }
{
    Ok(Value::String(value.write_to_string(alloc)?))
}

impl LanguageIdentifier {
    /// The text as a JSON value: `en-US` gives `"en-US"`. It allocates. `AllocError`: out of memory.
    #[tactic(auto, using(writeable::proofs::AnnotatedTextLemmas::text_of_bytes))]
    pub fn to_json(&self, alloc: Global) -> Result<Value, AllocError>
        ensures { IfOk result (λ value. view value ≡ string (language_text self.now)) }
    {
        json_of(alloc, self)
    }

    /// The language identifier of the text in a JSON value, as `try_from_str`: `"EN-us"` gives `en-US`.
    ///
    /// The errors are those of `try_from_str`. A value that is no text has the error of the empty text,
    /// `InvalidLanguage`. It allocates only for variants.
    pub fn from_json(alloc: Global, value: &Value) -> Result<Self, ParseError>
        ensures value { IfOk result (λ id. MeansLanguage (pieces (json_text (view value.now))) id) }
        ensures fault { IfErr result
            (λ e. (e ≡ ParseError.Memory) ⊎ HasFault MeansLanguage (pieces (json_text (view value.now))) e) }
        ensures room { may_grow (pieces (json_text (view value.now))) ≡ false → ¬ (IsErrOf result ParseError.Memory) }
    {
        Self::try_from_str(alloc, text_of_json(value))
    }
}
