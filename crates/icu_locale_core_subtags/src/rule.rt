//! What makes a type of subtags.

ghost use Rattle.std.specs.Prelude.{◌≡◌};

use icu_locale_core_grammar::ParseError;
use tinystr::TinyAsciiStr;

/// A rule of subtags of at most N characters: which texts it accepts, the case that it gives them, and its fault. That
/// of scripts, of 4 characters, accepts `LATN`, gives it the case of `Latn`, and has the fault `InvalidSubtag`.
pub trait SubtagRule<const N: usize> {
    ghost use Rattle.std.specs.Prelude.{◌≡◌, ℕ, Bool, List};
    ghost use Rattle.icu_locale_core_grammar.specs.declared.error.ParseError.{ParseError};
    ghost use Rattle.icu_locale_core_subtags.specs.SubtagRule.{IsSubtagRule};

    // the texts, in either case
    ghost accepts: { List ℕ → Bool };

    // the text in normal case
    ghost normal: { List ℕ → List ℕ };

    // the error of a text that is not accepted
    ghost fault: { ParseError };

    // accepted texts are short words, and the normal case changes only case
    ghost laws: { IsSubtagRule N accepts normal };

    /// Whether the text is accepted, in either case: `LATN` and `latn` are as scripts.
    fn accepts(text: &[u8]) -> bool
        ensures { result ≡ accepts text.now };

    /// The text in normal case: `Latn` of the script `LATN`.
    fn normal(text: TinyAsciiStr<N>) -> TinyAsciiStr<N>
        ensures { result ≡ normal text.entry };

    /// The fault of a text that is not accepted: `InvalidSubtag` for scripts.
    fn fault() -> ParseError
        ensures { result ≡ fault };
}
