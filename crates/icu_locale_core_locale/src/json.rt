//! The JSON form of a locale: its text.

ghost use Rattle.std.specs.Prelude.{◌≡◌, ◌⊎◌, false, IfOk, IfErr};
ghost use Rattle.std.specs.Result.{IsErrOf};
ghost use Rattle.serde_json.specs.Data.{string};
ghost use Rattle.serde_json.specs.View.{view};
ghost use Rattle.icu_locale_core_grammar.specs.declared.error.ParseError.{ParseError};
ghost use Rattle.icu_locale_core_grammar.specs.Pieces.{pieces};
ghost use Rattle.icu_locale_core_grammar.specs.Meaning.{MeansTag};
ghost use Rattle.icu_locale_core_grammar.specs.FaultyPiece.{HasFault};
ghost use Rattle.icu_locale_core_grammar.specs.NormalText.{normal_text};
ghost use Rattle.icu_locale_core_subtags.specs.JsonText.{json_text};
ghost use Rattle.icu_locale_core_locale.specs.Allocation.{tag_may_grow};

use crate::locale::Locale;
use icu_locale_core_grammar::ParseError;
use icu_locale_core_langid::json_of;
use icu_locale_core_subtags::text_of_json;
use serde_json::Value;
use std::alloc::{AllocError, Global};

impl Locale {
    /// The text as a JSON value: `en-u-nu-thai` gives `"en-u-nu-thai"`. It allocates. `AllocError`: out of memory.
    #[tactic(auto, using(writeable::proofs::AnnotatedTextLemmas::text_of_bytes))]
    pub fn to_json(&self, alloc: Global) -> Result<Value, AllocError>
        ensures { IfOk result (λ value. view value ≡ string (normal_text self.now)) }
    {
        json_of(alloc, self)
    }

    /// The locale of the text in a JSON value, as `try_from_str`: `"EN-u-NU-Thai"` gives `en-u-nu-thai`.
    ///
    /// The errors are those of `try_from_str`. A value that is no text has the error of the empty text,
    /// `InvalidLanguage`. It allocates only for variants and extensions.
    pub fn from_json(alloc: Global, value: &Value) -> Result<Self, ParseError>
        ensures value { IfOk result (MeansTag (pieces (json_text (view value.now)))) }
        ensures fault { IfErr result
            (λ e. (e ≡ ParseError.Memory) ⊎ HasFault MeansTag (pieces (json_text (view value.now))) e) }
        ensures room { tag_may_grow (pieces (json_text (view value.now))) ≡ false
            → ¬ (IsErrOf result ParseError.Memory) }
    {
        Self::try_from_str(alloc, text_of_json(value))
    }
}
