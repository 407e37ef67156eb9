//! The singleton of an extension that has no rule of its own.

ghost use Rattle.std.specs.Prelude.{◌≡◌};
ghost use Rattle.icu_locale_core_grammar.specs.declared.error.ParseError.{ParseError};
ghost use Rattle.icu_locale_core_grammar.specs.Subtags.{is_other, lower};
ghost use Rattle.icu_locale_core_extensions.specs.OtherSingleton.{other_rule};

use icu_locale_core_grammar::ParseError;
use icu_locale_core_subtags::{SubtagOf, SubtagRule, is_letter, is_one_character};
use tinystr::TinyAsciiStr;

/// One letter or digit that is not `t`, `u` or `x`, in lower case.
pub struct OtherRule;

// The singleton of an extension that has no rule of its own: `a`.
pub(crate) type OtherSingleton = SubtagOf<OtherRule, 1>;

impl SubtagRule<1> for OtherRule {
    ghost accepts = { is_other };

    ghost normal = { lower };

    ghost fault = { ParseError.InvalidExtension };

    ghost laws = { other_rule };

    fn accepts(text: &[u8]) -> bool
        ensures { result ≡ is_other text.now }
    {
        is_one_character(text)
            && !is_letter(text, b'u')
            && !is_letter(text, b't')
            && !is_letter(text, b'x')
    }

    fn normal(text: TinyAsciiStr<1>) -> TinyAsciiStr<1>
        ensures { result ≡ lower text }
    {
        text.to_ascii_lowercase()
    }

    fn fault() -> ParseError
        ensures { result ≡ ParseError.InvalidExtension }
    {
        ParseError::InvalidExtension
    }
}
