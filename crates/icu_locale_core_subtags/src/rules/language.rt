//! A language.

ghost use Rattle.std.specs.Prelude.{◌≡◌, ◌↔◌, IsTrue, codes};
ghost use Rattle.icu_locale_core_grammar.specs.declared.error.ParseError.{ParseError};
ghost use Rattle.icu_locale_core_grammar.specs.Subtags.{is_language, lower};
ghost use Rattle.icu_locale_core_subtags.specs.RuleLaws.{language_rule};

use crate::rule::SubtagRule;
use crate::subtag_of::SubtagOf;
use crate::words::are_letters;
use icu_locale_core_grammar::ParseError;
use std::marker::PhantomData;
use tinystr::TinyAsciiStr;

/// 2 or 3 letters, in lower case: `en`.
pub struct LanguageRule;

/// A language: 2 or 3 letters, in lower case. `EN` reads as `en`; other texts are `InvalidLanguage`.
///
/// Source: UTS 35, section 3.2, `unicode_language_subtag` (longer ones are left out).
pub type Language = SubtagOf<LanguageRule, 3>;

impl SubtagRule<3> for LanguageRule {
    ghost accepts = { is_language };

    ghost normal = { lower };

    ghost fault = { ParseError.InvalidLanguage };

    ghost laws = { language_rule };

    fn accepts(text: &[u8]) -> bool {
        2 <= text.len() && text.len() <= 3 && are_letters(text)
    }

    fn normal(text: TinyAsciiStr<3>) -> TinyAsciiStr<3>
        ensures { result ≡ lower text }
    {
        text.to_ascii_lowercase()
    }

    fn fault() -> ParseError {
        ParseError::InvalidLanguage
    }
}

impl Language {
    /// The language `und`, which is not known.
    pub const UNKNOWN: Self = SubtagOf {
        text: TinyAsciiStr::<3>::UND,
        rule: PhantomData,
    };

    /// Whether the language is `und`: of `und` and `UND`, not of `en`. It does not allocate.
    pub fn is_unknown(&self) -> bool
        ensures { IsTrue result ↔ (self.now ≡ codes "und") }
    {
        *self == Self::default()
    }
}

/// The language `und`.
impl Default for Language {
    ghost is_default = { λ s. s ≡ codes "und" };

    fn default() -> Self {
        Self::UNKNOWN
    }
}
