//! The one type behind every type of subtags.

ghost use Rattle.std.specs.Prelude.{◌≡◌, true, false, MatchResult};

use crate::rule::SubtagRule;
use icu_locale_core_grammar::ParseError;
use std::marker::{Model, PhantomData};
use std::str::FromStr;
use tinystr::TinyAsciiStr;

/// A subtag of the rule R, of at most N characters: its text in normal case, as `Latn` for a script.
#[derive_where(Clone, Copy)]
pub struct SubtagOf<R: SubtagRule<N>, const N: usize> {
    pub(crate) text: TinyAsciiStr<N>,
    pub(crate) rule: PhantomData<R>,
}

impl<R: SubtagRule<N>, const N: usize> Model for SubtagOf<R, N> {
    ghost use Rattle.std.specs.Prelude.{◌≡◌, ℕ, List, true};

    ghost Value = { List ℕ };

    ghost view = { λ s. s.text };

    ghost invariant = { λ s. (R.accepts s.text ≡ true) × (R.normal s.text ≡ s.text) };

    ghost inverse = { λ text. record { text = text; rule = record {} } };
}

impl<R: SubtagRule<N>, const N: usize> SubtagOf<R, N> {
    /// The subtag of this text, in either case; the error of the rule where the rule does not accept it.
    ///
    /// As a language `EN` is `en`, and `abcd` is `InvalidLanguage`. It does not allocate.
    pub fn try_from_str(s: &str) -> Result<Self, ParseError>
        ensures { MatchResult result (λ subtag. (R.accepts s.now ≡ true) × (subtag ≡ R.normal s.now))
            (λ e. (R.accepts s.now ≡ false) × (e ≡ R.fault)) }
    {
        Self::try_from_utf8(s.as_bytes())
    }

    /// The subtag of these bytes, as `try_from_str`: as a language `EN` is `en`. The errors are those of
    /// `try_from_str`. It does not allocate.
    pub fn try_from_utf8(code_units: &[u8]) -> Result<Self, ParseError>
        ensures { MatchResult result (λ subtag. (R.accepts code_units.now ≡ true) × (subtag ≡ R.normal code_units.now))
            (λ e. (R.accepts code_units.now ≡ false) × (e ≡ R.fault)) }
    {
        if !R::accepts(code_units) {
            return Err(R::fault());
        }
        Ok(SubtagOf {
            text: R::normal(TinyAsciiStr::of_text(code_units)),
            rule: PhantomData,
        })
    }

    /// The text in normal case: of the language that `EN` reads as it is `en`. It does not allocate.
    pub fn as_str(&self) -> &str
        ensures { result.now ≡ self.now }
    {
        self.text.as_str()
    }

    /// The text in normal case, as an owned value: of the language `en` it is `en`. It does not allocate.
    pub fn to_tinystr(&self) -> TinyAsciiStr<N>
        ensures { result ≡ self.now }
    {
        self.text
    }
}

/// The subtag of this text, as `try_from_str`: as a language `EN` is `en`.
impl<R: SubtagRule<N>, const N: usize> FromStr for SubtagOf<R, N> {
    type Err = ParseError;

    ghost from_str_gives = { λ s r. MatchResult r (λ subtag. (R.accepts s ≡ true) × (subtag ≡ R.normal s))
        (λ e. (R.accepts s ≡ false) × (e ≡ R.fault)) };

    fn from_str(s: &str) -> Result<Self, ParseError> {
        Self::try_from_str(s)
    }
}
