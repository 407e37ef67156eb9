//! Reading a locale of at most one variant and one keyword; nothing allocates.

ghost use Rattle.std.specs.Prelude.{MatchResult};
ghost use Rattle.icu_locale_core_grammar.specs.Pieces.{pieces};
ghost use Rattle.icu_locale_core_grammar.specs.SingleVariant.{MeansSingle, HasSingleFault};
ghost use Rattle.icu_locale_core_langid.specs.SingleModes.{single};

use crate::locale::Locale;
use icu_locale_core_grammar::ParseError;
use icu_locale_core_langid::ParserMode;
use icu_locale_core_langid::single::{
    SingleParts, parse_locale_with_single_variant_single_keyword_unicode_keyword_extension,
};

impl Locale {
    /// The parts of the locale that the bytes are, where it has one variant and one keyword at most, and nothing else
    /// in its extensions. It does not allocate.
    ///
    /// `EN-us-u-NU-Thai` gives `en`, no script, `US`, no variant, and `nu` with `thai`. `InvalidLanguage`: the first
    /// piece is no language. `InvalidSubtag`: a later piece of the language part does not fit, or is a second variant.
    /// `InvalidExtension`: a second keyword or piece of a value, an attribute, or another extension. Source: UTS 35,
    /// section 3.2.
    pub fn try_from_utf8_with_single_variant_single_keyword_unicode_extension(
        code_units: &[u8],
    ) -> Result<SingleParts, ParseError>
        ensures { MatchResult result (λ parts. MeansSingle (pieces code_units.now) (single parts))
            (λ e. HasSingleFault (pieces code_units.now) e) }
    {
        parse_locale_with_single_variant_single_keyword_unicode_keyword_extension(
            code_units,
            ParserMode::Locale,
        )
    }
}
