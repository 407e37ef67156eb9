//! A private subtag.

ghost use Rattle.std.specs.Prelude.{◌≡◌};
ghost use Rattle.icu_locale_core_grammar.specs.declared.error.ParseError.{ParseError};
ghost use Rattle.icu_locale_core_grammar.specs.Subtags.{is_private_piece, lower};
ghost use Rattle.icu_locale_core_subtags.specs.RuleLaws.{private_piece_rule};

use crate::rule::SubtagRule;
use crate::subtag_of::SubtagOf;
use crate::words::is_word;
use icu_locale_core_grammar::ParseError;
use tinystr::TinyAsciiStr;

/// 1 to 8 letters and digits, in lower case: `a`.
pub struct PieceRule;

/// A private subtag: 1 to 8 letters and digits, in lower case. `A1` reads as `a1`; other texts are `InvalidExtension`.
///
/// Source: UTS 35, section 3.2, `pu_extensions`.
pub type Subtag = SubtagOf<PieceRule, 8>;

impl SubtagRule<8> for PieceRule {
    ghost accepts = { is_private_piece };

    ghost normal = { lower };

    ghost fault = { ParseError.InvalidExtension };

    ghost laws = { private_piece_rule };

    fn accepts(text: &[u8]) -> bool {
        is_word(text, 1, 8)
    }

    fn normal(text: TinyAsciiStr<8>) -> TinyAsciiStr<8>
        ensures { result ≡ lower text }
    {
        text.to_ascii_lowercase()
    }

    fn fault() -> ParseError {
        ParseError::InvalidExtension
    }
}
