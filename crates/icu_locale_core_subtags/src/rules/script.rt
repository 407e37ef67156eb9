//! A script.

ghost use Rattle.std.specs.Prelude.{◌≡◌};
ghost use Rattle.icu_locale_core_grammar.specs.declared.error.ParseError.{ParseError};
ghost use Rattle.icu_locale_core_grammar.specs.Subtags.{is_script, title};
ghost use Rattle.icu_locale_core_subtags.specs.RuleLaws.{script_rule};

use crate::rule::SubtagRule;
use crate::subtag_of::SubtagOf;
use crate::words::are_letters;
use icu_locale_core_grammar::ParseError;
use tinystr::TinyAsciiStr;

/// 4 letters, in title case: `Latn`.
pub struct ScriptRule;

/// A script: 4 letters, in title case. `latn` reads as `Latn`; other texts are `InvalidSubtag`.
///
/// Source: UTS 35, section 3.2, `unicode_script_subtag`.
pub type Script = SubtagOf<ScriptRule, 4>;

impl SubtagRule<4> for ScriptRule {
    ghost accepts = { is_script };

    ghost normal = { title };

    ghost fault = { ParseError.InvalidSubtag };

    ghost laws = { script_rule };

    fn accepts(text: &[u8]) -> bool {
        text.len() == 4 && are_letters(text)
    }

    fn normal(text: TinyAsciiStr<4>) -> TinyAsciiStr<4>
        ensures { result ≡ title text }
    {
        text.to_ascii_titlecase()
    }

    fn fault() -> ParseError {
        ParseError::InvalidSubtag
    }
}
