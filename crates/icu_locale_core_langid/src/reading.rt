//! Reading a whole text as a language identifier.

ghost use Rattle.std.specs.Prelude.{◌≡◌, ◌⊎◌, false, IfOk, IfErr};
ghost use Rattle.std.specs.Result.{IsErrOf};
ghost use Rattle.icu_locale_core_grammar.specs.declared.error.ParseError.{ParseError};
ghost use Rattle.icu_locale_core_grammar.specs.Pieces.{pieces};
ghost use Rattle.icu_locale_core_grammar.specs.LanguagePart.{MeansLanguage};
ghost use Rattle.icu_locale_core_grammar.specs.FaultyPiece.{HasFault};
ghost use Rattle.icu_locale_core_langid.specs.Allocation.{may_grow};

use crate::language_identifier::LanguageIdentifier;
use crate::modes::ParserMode;
use crate::parser::parse_language_identifier;
use icu_locale_core_grammar::ParseError;
use std::alloc::Global;

impl LanguageIdentifier {
    /// The language identifier that the text is, in either case.
    ///
    /// `en-latn-us-fonipa-1996` reads as `en-Latn-US-1996-fonipa`. `InvalidLanguage`: the first piece is no language,
    /// as in the empty text and in `abcd`. `InvalidSubtag`: a later piece does not fit, as in `en-`, `de-1996-1996` and
    /// `en-u`. `Memory`: out of memory; it allocates only for variants, and not for `de-toolongpiece-1996`. Source: UTS
    /// 35, section 3.1.
    pub fn try_from_str(alloc: Global, s: &str) -> Result<Self, ParseError>
        ensures value { IfOk result (λ id. MeansLanguage (pieces s.now) id) }
        ensures fault { IfErr result (λ e. (e ≡ ParseError.Memory) ⊎ HasFault MeansLanguage (pieces s.now) e) }
        ensures room { may_grow (pieces s.now) ≡ false → ¬ (IsErrOf result ParseError.Memory) }
    {
        Self::try_from_utf8(alloc, s.as_bytes())
    }

    /// The language identifier that the bytes are, as `try_from_str`: `EN-us` reads as `en-US`. The errors are those of
    /// `try_from_str`; it allocates where that does.
    pub fn try_from_utf8(alloc: Global, code_units: &[u8]) -> Result<Self, ParseError>
        ensures value { IfOk result (λ id. MeansLanguage (pieces code_units.now) id) }
        ensures fault { IfErr result (λ e. (e ≡ ParseError.Memory) ⊎ HasFault MeansLanguage (pieces code_units.now) e) }
        ensures room { may_grow (pieces code_units.now) ≡ false → ¬ (IsErrOf result ParseError.Memory) }
    {
        parse_language_identifier(alloc, code_units, ParserMode::LanguageIdentifier)
    }
}
