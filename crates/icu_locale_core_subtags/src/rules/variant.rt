//! A variant.

ghost use Rattle.std.specs.Prelude.{◌≡◌};
ghost use Rattle.icu_locale_core_grammar.specs.declared.error.ParseError.{ParseError};
ghost use Rattle.icu_locale_core_grammar.specs.Subtags.{is_variant, lower};
ghost use Rattle.icu_locale_core_subtags.specs.RuleLaws.{variant_rule};

use crate::rule::SubtagRule;
use crate::subtag_of::SubtagOf;
use crate::words::is_word;
use icu_locale_core_grammar::ParseError;
use tinystr::TinyAsciiStr;

/// 5 to 8 letters and digits, or 4 of which the first is a digit, in lower case: `valencia`, `1996`.
pub struct VariantRule;

/// A variant: 5 to 8 letters and digits, or 4 of which the first is a digit, in lower case. `1996` and `Valencia` read;
/// other texts are `InvalidSubtag`.
///
/// Source: UTS 35, section 3.2, `unicode_variant_subtag`.
pub type Variant = SubtagOf<VariantRule, 8>;

impl SubtagRule<8> for VariantRule {
    ghost accepts = { is_variant };

    ghost normal = { lower };

    ghost fault = { ParseError.InvalidSubtag };

    ghost laws = { variant_rule };

    fn accepts(text: &[u8]) -> bool {
        is_word(text, 5, 8) || (is_word(text, 4, 4) && text[0].is_ascii_digit())
    }

    fn normal(text: TinyAsciiStr<8>) -> TinyAsciiStr<8>
        ensures { result ≡ lower text }
    {
        text.to_ascii_lowercase()
    }

    fn fault() -> ParseError {
        ParseError::InvalidSubtag
    }
}
