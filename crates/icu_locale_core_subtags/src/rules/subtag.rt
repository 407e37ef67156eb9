//! A subtag of any kind: a piece of an extension that has no rule of its own.

ghost use Rattle.std.specs.Prelude.{◌≡◌, ◌↔◌, ◌≤◌, IsTrue, true, false, length, MatchOption, MatchResult};
ghost use Rattle.icu_locale_core_grammar.specs.declared.error.ParseError.{ParseError};
ghost use Rattle.icu_locale_core_grammar.specs.Subtags.{is_other_piece, is_value, lower};
ghost use Rattle.icu_locale_core_subtags.specs.RuleLaws.{other_piece_rule};

use super::script::Script;
use crate::rule::SubtagRule;
use crate::subtag_of::SubtagOf;
use crate::words::is_word;
use icu_locale_core_grammar::ParseError;
use std::marker::PhantomData;
use tinystr::TinyAsciiStr;

/// 2 to 8 letters and digits, in lower case: `foo`.
pub struct WordRule;

/// A subtag of any kind: 2 to 8 letters and digits, in lower case. `Foo` reads as `foo`; other texts are
/// `InvalidSubtag`.
///
/// Source: UTS 35, section 3.2, `other_extensions`.
pub type Subtag = SubtagOf<WordRule, 8>;

impl SubtagRule<8> for WordRule {
    ghost accepts = { is_other_piece };

    ghost normal = { lower };

    ghost fault = { ParseError.InvalidSubtag };

    ghost laws = { other_piece_rule };

    fn accepts(text: &[u8]) -> bool {
        is_word(text, 2, 8)
    }

    fn normal(text: TinyAsciiStr<8>) -> TinyAsciiStr<8>
        ensures { result ≡ lower text }
    {
        text.to_ascii_lowercase()
    }

    fn fault() -> ParseError {
        ParseError::InvalidSubtag
    }
}

impl Subtag {
    /// The number of characters, 2 to 8: of `foobar` it is 6. It does not allocate.
    pub fn len(&self) -> usize
        ensures value { result ≡ length self.now }
        ensures low { 2 ≤ result }
        ensures high { result ≤ 8 }
    {
        self.text.len()
    }

    /// The text in lower case, as an owned value: of `FooBar` it is `foobar`. It does not allocate.
    pub fn as_tinystr(&self) -> TinyAsciiStr<8>
        ensures { result ≡ self.now }
    {
        self.text
    }

    /// Whether the text in lower case is this text: of `Foo` `eq_str("foo")` is true, and `eq_str("Foo")` is not. It
    /// does not allocate.
    pub fn eq_str(&self, other: &str) -> bool
        ensures { IsTrue result ↔ (self.now ≡ other.now) }
    {
        self.as_str() == other
    }
}

/// The subtag of a piece of the value of a keyword or a field, 3 to 8 letters and digits: `Foo` gives `foo`, and of
/// `fo` there is none. It does not allocate.
pub fn value_subtag(piece: &[u8]) -> Option<Subtag>
    ensures { MatchOption result (is_value piece.now ≡ false)
        (λ subtag. (is_value piece.now ≡ true) × (subtag ≡ lower piece.now)) }
{
    if piece.len() < 3 {
        return None;
    }
    Subtag::try_from_utf8(piece).ok()
}

/// The subtag of this text, as `try_from_str`: `Foo` gives `foo`, and `a` is `InvalidSubtag`.
impl<const N: usize> TryFrom<TinyAsciiStr<N>> for Subtag {
    type Error = ParseError;

    ghost try_from_gives = { λ text r. MatchResult r (λ subtag. (is_other_piece text ≡ true) × (subtag ≡ lower text))
        (λ e. (is_other_piece text ≡ false) × (e ≡ ParseError.InvalidSubtag)) };

    fn try_from(text: TinyAsciiStr<N>) -> Result<Self, ParseError> {
        Self::try_from_str(text.as_str())
    }
}

/// The script in lower case: `Latn` gives `latn`.
impl From<Script> for Subtag {
    ghost from_gives = { λ script subtag. subtag ≡ lower script };

    fn from(script: Script) -> Self {
        SubtagOf {
            text: script.text.resize::<8>().to_ascii_lowercase(),
            rule: PhantomData,
        }
    }
}
