//! The language part of a whole tag.

ghost use Rattle.std.specs.Prelude.{◌≡◌, ◌⊎◌, false, IfOk, IfErr};
ghost use Rattle.std.specs.Result.{IsErrOf};
ghost use Rattle.icu_locale_core_grammar.specs.declared.error.ParseError.{ParseError};
ghost use Rattle.icu_locale_core_grammar.specs.Pieces.{pieces};
ghost use Rattle.icu_locale_core_grammar.specs.Meaning.{TagMeaning, MeansTag};
ghost use Rattle.icu_locale_core_grammar.specs.FaultyPiece.{HasFault};
ghost use Rattle.icu_locale_core_locale.specs.Allocation.{tag_may_grow};

use crate::locale::Locale;
use crate::parser::parse_locale;
use icu_locale_core_grammar::ParseError;
use icu_locale_core_langid::LanguageIdentifier;
use std::alloc::Global;

/// What is read from a whole tag, without its extensions: `LanguageIdentifier::try_from_locale_bytes`.
pub trait TryFromLocaleBytes {
    ghost use Rattle.icu_locale_core_grammar.specs.Meaning.{TagMeaning};

    // what is kept of the meaning of a tag
    ghost part: { TagMeaning → Self };

    /// Reads the whole tag, and leaves its extensions out. The errors are those of `Locale::try_from_utf8`. It
    /// allocates only for variants and extensions.
    fn try_from_locale_bytes(alloc: Global, v: &[u8]) -> Result<Self, ParseError>
    where
        Self: Sized,
        ensures value { IfOk result (λ kept. (m : TagMeaning) × MeansTag (pieces v.now) m × (kept ≡ part m)) }
        ensures fault { IfErr result (λ e. (e ≡ ParseError.Memory) ⊎ HasFault MeansTag (pieces v.now) e) }
        ensures room { tag_may_grow (pieces v.now) ≡ false → ¬ (IsErrOf result ParseError.Memory) };
}

impl TryFromLocaleBytes for LanguageIdentifier {
    ghost part = { λ m. m.language };

    /// The language part of the tag that these bytes are: of `en-US-u-nu-thai` it is `en-US`.
    ///
    /// The extensions are read too: `en-u` is `InvalidExtension`. The errors are those of `Locale::try_from_utf8`. It
    /// allocates only for variants and extensions.
    fn try_from_locale_bytes(alloc: Global, v: &[u8]) -> Result<Self, ParseError>
        ensures value { IfOk result (λ id. (m : TagMeaning) × MeansTag (pieces v.now) m × (id ≡ m.language)) }
        ensures fault { IfErr result (λ e. (e ≡ ParseError.Memory) ⊎ HasFault MeansTag (pieces v.now) e) }
        ensures room { tag_may_grow (pieces v.now) ≡ false → ¬ (IsErrOf result ParseError.Memory) }
    {
        match parse_locale(alloc, v) {
            Ok(Locale { id, extensions: _ }) => Ok(id),
            Err(error) => Err(error),
        }
    }
}
