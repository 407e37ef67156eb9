//! An attribute.

ghost use Rattle.std.specs.Prelude.{◌≡◌};
ghost use Rattle.icu_locale_core_grammar.specs.declared.error.ParseError.{ParseError};
ghost use Rattle.icu_locale_core_grammar.specs.Subtags.{is_attribute, lower};
ghost use Rattle.icu_locale_core_subtags.specs.RuleLaws.{attribute_rule};

use crate::rule::SubtagRule;
use crate::subtag_of::SubtagOf;
use crate::words::is_word;
use icu_locale_core_grammar::ParseError;
use tinystr::TinyAsciiStr;

/// 3 to 8 letters and digits, in lower case: `foo`.
pub struct AttributeRule;

/// An attribute: 3 to 8 letters and digits, in lower case. `Foo` reads as `foo`; other texts are `InvalidExtension`.
///
/// Source: UTS 35, section 3.2, `attribute`.
pub type Attribute = SubtagOf<AttributeRule, 8>;

impl SubtagRule<8> for AttributeRule {
    ghost accepts = { is_attribute };

    ghost normal = { lower };

    ghost fault = { ParseError.InvalidExtension };

    ghost laws = { attribute_rule };

    fn accepts(text: &[u8]) -> bool {
        is_word(text, 3, 8)
    }

    fn normal(text: TinyAsciiStr<8>) -> TinyAsciiStr<8>
        ensures { result ≡ lower text }
    {
        text.to_ascii_lowercase()
    }

    fn fault() -> ParseError {
        ParseError::InvalidExtension
    }
}
