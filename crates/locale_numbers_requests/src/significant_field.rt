//! The significant digits that a request asks for.

ghost use Rattle.std.specs.Prelude.{◌≡◌};
ghost use Rattle.fixed_decimal.specs.NumberText.{minus};
ghost use Rattle.locale_numbers_formats.specs.Cutting.{cut_at};
ghost use Rattle.locale_numbers_requests.specs.RoundingField.{priority_named, significant_by, significant_in, significant_named, size_named};

use crate::pieces::two_pieces;
use crate::rounding_field::size_named;
use locale_numbers_formats::{RoundingPriority, SignificantDigits, value_beside};

// The most significant digits that a word names.
const MOST: u32 = 65535;

/// The number from 1 to 65535 that a word writes with no zero in front: 3 of `3`. `None` where it writes none, as `0` and
/// `03`. It does not allocate.
pub fn significant_count(word: &[u8]) -> Option<u16>
    ensures { result ≡ size_named 65535 word.now }
{
    let count = size_named(MOST, word)?;
    Some(count as u16)
}

/// At least so many significant digits and at most so many. `None` where a count is missing, or the second is below the
/// first. It does not allocate.
pub fn significant_by(least: Option<u16>, most: Option<u16>) -> Option<SignificantDigits>
    ensures { result ≡ significant_by least most }
{
    let least = least?;
    let most = most?;
    if least <= most {
        Some(SignificantDigits { least, most })
    } else {
        None
    }
}

/// The significant digits that two counts with a minus between say: at least 1 and at most 3 of `1-3`. `None` where the
/// text is not so, as `3` and `3-1`. It does not allocate.
pub fn significant_in(text: &[u8]) -> Option<SignificantDigits>
    ensures { result ≡ significant_in (cut_at minus text.now) }
{
    let (least, most) = two_pieces(text, b'-')?;
    significant_by(significant_count(least), significant_count(most))
}

// The significant digits that a word names: at least 1 and at most 3 of `s1-3`.
pub(crate) fn significant_named(word: &[u8]) -> Option<SignificantDigits>
    ensures { result ≡ significant_named word.now }
{
    let (first, rest) = word.split_first()?;
    if *first == b's' {
        significant_in(rest)
    } else {
        None
    }
}

// The words of priorities.
const PRIORITIES: [(&[u8], RoundingPriority); 2] = [
    (b"more", RoundingPriority::MorePrecision),
    (b"less", RoundingPriority::LessPrecision),
];

/// Which of a fraction and significant digits counts, by a word: `MorePrecision` of `more`. `None` where it names none, as
/// `auto`. It does not allocate.
pub fn priority_named(word: &[u8]) -> Option<RoundingPriority>
    ensures { result ≡ priority_named word.now }
{
    value_beside(&PRIORITIES, word)
}
