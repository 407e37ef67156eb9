//! A region.

ghost use Rattle.std.specs.Prelude.{◌≡◌};
ghost use Rattle.std.specs.List.{list_all};
ghost use Rattle.std.specs.Char.{is_ascii_alphabetic};
ghost use Rattle.icu_locale_core_grammar.specs.declared.error.ParseError.{ParseError};
ghost use Rattle.icu_locale_core_grammar.specs.Subtags.{is_region, upper};
ghost use Rattle.icu_locale_core_subtags.specs.RuleLaws.{region_rule};

use crate::rule::SubtagRule;
use crate::subtag_of::SubtagOf;
use crate::words::{are_digits, are_letters};
use icu_locale_core_grammar::ParseError;
use tinystr::TinyAsciiStr;

/// 2 letters or 3 digits, in upper case: `US`, `419`.
pub struct RegionRule;

/// A region: 2 letters or 3 digits, in upper case. `us` reads as `US`; other texts are `InvalidSubtag`.
///
/// Source: UTS 35, section 3.2, `unicode_region_subtag`.
pub type Region = SubtagOf<RegionRule, 3>;

impl SubtagRule<3> for RegionRule {
    ghost accepts = { is_region };

    ghost normal = { upper };

    ghost fault = { ParseError.InvalidSubtag };

    ghost laws = { region_rule };

    fn accepts(text: &[u8]) -> bool {
        (text.len() == 2 && are_letters(text)) || (text.len() == 3 && are_digits(text))
    }

    fn normal(text: TinyAsciiStr<3>) -> TinyAsciiStr<3>
        ensures { result ≡ upper text }
    {
        text.to_ascii_uppercase()
    }

    fn fault() -> ParseError {
        ParseError::InvalidSubtag
    }
}

impl Region {
    /// Whether the region is of letters: `US` is, and `419` is not. It does not allocate.
    pub fn is_alphabetic(&self) -> bool
        ensures { result ≡ list_all is_ascii_alphabetic self.now }
    {
        self.text.is_ascii_alphabetic()
    }
}
