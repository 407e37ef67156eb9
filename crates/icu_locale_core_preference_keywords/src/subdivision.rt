//! A part of a region: a region and a suffix.

ghost use Rattle.std.specs.Prelude.{◌≡◌, Some, None, MatchResult, MatchOption};
ghost use Rattle.icu_locale_core_grammar.specs.declared.error.ParseError.{ParseError};
ghost use Rattle.icu_locale_core_grammar.specs.TagPreferences.{subdivision_at, subdivision_of};

use icu_locale_core_grammar::ParseError;
use icu_locale_core_subtags::Region;
use icu_locale_core_subtags::unicode::SubdivisionSuffix;
use std::marker::Model;

/// A subdivision: `ustx` is the region `US` and the suffix `tx`. Whether CLDR has it is not checked.
///
/// Source: UTS 35, section 3.6, `unicode_subdivision_id`.
#[derive(Clone, Copy, PartialEq, Eq, PartialOrd, Ord, Hash)]
pub struct SubdivisionId {
    /// The region that the subdivision is part of: `US` of `ustx`.
    pub region: Region,
    /// 1 to 4 letters and digits, in lower case: `tx` of `ustx`.
    pub suffix: SubdivisionSuffix,
}

impl Model for SubdivisionId {
    ghost use Rattle.icu_locale_core_grammar.specs.TagPreferences.{Subdivision};

    ghost Value = { Subdivision };

    ghost view = { λ s. record { region = s.region; suffix = s.suffix } };

    ghost inverse = { λ v. record { region = v.region; suffix = v.suffix } };
}

// The subdivision whose region has n characters.
fn read_at(code_units: &[u8], n: usize) -> Option<SubdivisionId>
    ensures { MatchOption result (subdivision_at n code_units.now ≡ None)
        (λ s. subdivision_at n code_units.now ≡ Some s) }
{
    let (first, second) = code_units.split_at_checked(n)?;
    let region = Region::try_from_utf8(first).ok()?;
    let suffix = SubdivisionSuffix::try_from_utf8(second).ok()?;
    Some(SubdivisionId { region, suffix })
}

impl SubdivisionId {
    /// The subdivision of this region and this suffix: of `US` and `tx` it is `ustx`. It does not allocate.
    pub const fn new(region: Region, suffix: SubdivisionSuffix) -> Self
        ensures { result ≡ record { region = region; suffix = suffix } }
    {
        SubdivisionId { region, suffix }
    }

    /// The subdivision that the text spells: a region, and 1 to 4 letters and digits after it.
    ///
    /// `USTX` is region `US` and suffix `tx`, `419abc` region `419` and suffix `abc`. Any other text is
    /// `InvalidExtension`. It does not allocate.
    pub fn try_from_utf8(code_units: &[u8]) -> Result<Self, ParseError>
        ensures { MatchResult result (λ s. subdivision_of code_units.now ≡ Some s)
            (λ e. (subdivision_of code_units.now ≡ None) × (e ≡ ParseError.InvalidExtension)) }
    {
        match read_at(code_units, 2) {
            Some(found) => Ok(found),
            None => read_at(code_units, 3).ok_or(ParseError::InvalidExtension),
        }
    }

    /// The subdivision that the text spells, as `try_from_utf8`: `USTX` is region `US` and suffix `tx`. The errors are
    /// those of `try_from_utf8`. It does not allocate.
    pub fn try_from_str(s: &str) -> Result<Self, ParseError>
        ensures { MatchResult result (λ d. subdivision_of s.now ≡ Some d)
            (λ e. (subdivision_of s.now ≡ None) × (e ≡ ParseError.InvalidExtension)) }
    {
        Self::try_from_utf8(s.as_bytes())
    }
}
