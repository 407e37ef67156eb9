//! The key of a keyword.

ghost use Rattle.std.specs.Prelude.{◌≡◌};
ghost use Rattle.icu_locale_core_grammar.specs.declared.error.ParseError.{ParseError};
ghost use Rattle.icu_locale_core_grammar.specs.Subtags.{is_key, lower};
ghost use Rattle.icu_locale_core_subtags.specs.RuleLaws.{key_rule};

use crate::rule::SubtagRule;
use crate::subtag_of::SubtagOf;
use icu_locale_core_grammar::ParseError;
use tinystr::TinyAsciiStr;

/// A letter or digit, and a letter, in lower case: `nu`.
pub struct KeyRule;

/// The key of a keyword: a letter or digit, and a letter, in lower case. `NU` reads as `nu`; other texts are
/// `InvalidExtension`.
///
/// Source: UTS 35, section 3.2, `key`.
pub type Key = SubtagOf<KeyRule, 2>;

impl SubtagRule<2> for KeyRule {
    ghost accepts = { is_key };

    ghost normal = { lower };

    ghost fault = { ParseError.InvalidExtension };

    ghost laws = { key_rule };

    fn accepts(text: &[u8]) -> bool {
        match text {
            [first, second] => first.is_ascii_alphanumeric() && second.is_ascii_alphabetic(),
            _ => false,
        }
    }

    fn normal(text: TinyAsciiStr<2>) -> TinyAsciiStr<2>
        ensures { result ≡ lower text }
    {
        text.to_ascii_lowercase()
    }

    fn fault() -> ParseError {
        ParseError::InvalidExtension
    }
}
