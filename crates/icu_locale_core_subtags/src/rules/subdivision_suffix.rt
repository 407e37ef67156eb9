//! The suffix of a subdivision.

ghost use Rattle.std.specs.Prelude.{◌≡◌};
ghost use Rattle.icu_locale_core_grammar.specs.declared.error.ParseError.{ParseError};
ghost use Rattle.icu_locale_core_grammar.specs.Subtags.{lower};
ghost use Rattle.icu_locale_core_grammar.specs.TagPreferences.{is_suffix};
ghost use Rattle.icu_locale_core_subtags.specs.RuleLaws.{suffix_rule};

use crate::rule::SubtagRule;
use crate::subtag_of::SubtagOf;
use crate::words::is_word;
use icu_locale_core_grammar::ParseError;
use tinystr::TinyAsciiStr;

/// 1 to 4 letters and digits, in lower case: `eng`.
pub struct SubdivisionSuffixRule;

/// The suffix of a subdivision: 1 to 4 letters and digits, in lower case. `ENG` reads as `eng`; other texts are
/// `InvalidExtension`.
///
/// Source: UTS 35, section 3.6, `unicode_subdivision_suffix`.
pub type SubdivisionSuffix = SubtagOf<SubdivisionSuffixRule, 4>;

impl SubtagRule<4> for SubdivisionSuffixRule {
    ghost accepts = { is_suffix };

    ghost normal = { lower };

    ghost fault = { ParseError.InvalidExtension };

    ghost laws = { suffix_rule };

    fn accepts(text: &[u8]) -> bool {
        is_word(text, 1, 4)
    }

    fn normal(text: TinyAsciiStr<4>) -> TinyAsciiStr<4>
        ensures { result ≡ lower text }
    {
        text.to_ascii_lowercase()
    }

    fn fault() -> ParseError {
        ParseError::InvalidExtension
    }
}
