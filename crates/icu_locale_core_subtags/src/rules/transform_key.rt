//! The key of a field.

ghost use Rattle.std.specs.Prelude.{◌≡◌};
ghost use Rattle.icu_locale_core_grammar.specs.declared.error.ParseError.{ParseError};
ghost use Rattle.icu_locale_core_grammar.specs.Subtags.{is_field_key, lower};
ghost use Rattle.icu_locale_core_subtags.specs.RuleLaws.{field_key_rule};

use crate::rule::SubtagRule;
use crate::subtag_of::SubtagOf;
use icu_locale_core_grammar::ParseError;
use tinystr::TinyAsciiStr;

/// A letter and a digit, in lower case: `h0`.
pub struct KeyRule;

/// The key of a field: a letter and a digit, in lower case. `H0` reads as `h0`; other texts are `InvalidExtension`.
///
/// Source: UTS 35, section 3.2, `tkey`.
pub type Key = SubtagOf<KeyRule, 2>;

impl SubtagRule<2> for KeyRule {
    ghost accepts = { is_field_key };

    ghost normal = { lower };

    ghost fault = { ParseError.InvalidExtension };

    ghost laws = { field_key_rule };

    fn accepts(text: &[u8]) -> bool {
        match text {
            [first, second] => first.is_ascii_alphabetic() && second.is_ascii_digit(),
            _ => false,
        }
    }

    fn normal(text: TinyAsciiStr<2>) -> TinyAsciiStr<2>
        ensures { result ≡ lower text }
    {
        text.to_ascii_lowercase()
    }

    fn fault() -> ParseError {
        ParseError::InvalidExtension
    }
}
