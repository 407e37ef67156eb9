//! The rounding that a request asks for, and the digits that it chooses.

ghost use Rattle.std.specs.Prelude.{◌≡◌, ◌≤◌, ◌∷◌, [], IfSome};
ghost use Rattle.fixed_decimal.specs.NumberText.{minus};
ghost use Rattle.locale_numbers_formats.specs.Cutting.{cut_at};
ghost use Rattle.locale_numbers_requests.specs.Increments.{increment_named, multiples_at};
ghost use Rattle.locale_numbers_requests.specs.RoundingField.{all_of, all_shown, comma, count_named, counts_by, counts_in, digits_at, digits_by, digits_in, either_at, either_by, front_by, is_cash, is_size, is_whole, keeps_digits, last_named, mode_named, places_named, position_named, priority_named, rounding_named, significant_at, significant_named, size_named, whole_at, whole_by};

use crate::digits::{are_digits, capped_number};
use crate::increments::{Increment, increment_named, multiples_at};
use crate::pieces::{five_pieces, four_pieces, three_pieces, two_pieces};
use crate::significant_field::{priority_named, significant_named};
use fixed_decimal::{SignedRoundingMode, UnsignedRoundingMode};
use locale_numbers_formats::{
    LeadingZeros, Rounding, RoundingPriority, SignificantDigits, TrailingZeros, value_beside,
};

const COMMA: u8 = b',';

// Which digits are shown.
#[derive(Clone, Copy)]
pub(crate) struct DigitsAsked {
    // What the number is rounded to.
    pub(crate) rounding: Rounding,
    // What becomes of the zeros in front.
    pub(crate) leading_zeros: LeadingZeros,
    // What becomes of the zeros at the end of its fraction.
    pub(crate) zeros: TrailingZeros,
    // How many fraction digits are shown at least.
    pub(crate) fraction_digits: i16,
}

// Whether a word is digits, of which the first is not zero.
fn is_size(word: &[u8]) -> bool
    ensures { result ≡ is_size word.now }
{
    match word.split_first() {
        None => false,
        Some((first, _)) => *first != b'0' && are_digits(word),
    }
}

// The number above zero, and not above a bound, that a word writes with no zero in front.
pub(crate) fn size_named(most: u32, word: &[u8]) -> Option<u32>
    requires { most ≤ 65535 }
    ensures value { result ≡ size_named most word.now }
    ensures bound { IfSome result (λ size. size ≤ most) }
{
    if !is_size(word) {
        return None;
    }
    let number = capped_number(word);
    if number <= most { Some(number) } else { None }
}

/// The position that a word names: -2 of `-2`. `None` where it names none, as `+1`, `01` and `32768`. It does not allocate.
pub fn position_named(word: &[u8]) -> Option<i16>
    ensures { result ≡ position_named word.now }
{
    let (first, rest) = word.split_first()?;
    if word == b"0".as_slice() {
        Some(0)
    } else if *first == b'-' {
        let size = size_named(32768, rest)?;
        Some((-(size as i32)) as i16)
    } else {
        let size = size_named(32767, word)?;
        Some(size as i16)
    }
}

// The places of the digits that are shown.
#[derive(Clone, Copy)]
enum Places {
    // Down to a position.
    Position(i16),
    // At least so many digits of a fraction, and the position of the last one that may be shown.
    Fraction(i16, i16),
}

/// The number from 0 to 32767 that a word writes with no zero in front: 2 of `2`. `None` where it writes none, as `02`. It
/// does not allocate.
pub fn count_named(word: &[u8]) -> Option<i16>
    ensures { result ≡ count_named word.now }
{
    if word == b"0".as_slice() {
        Some(0)
    } else {
        let size = size_named(32767, word)?;
        Some(size as i16)
    }
}

/// The position of the last of so many digits of a fraction: -2 of `2`. `None` where the word writes no number from 0 to
/// 32767. It does not allocate.
pub fn last_named(word: &[u8]) -> Option<i16>
    ensures { result ≡ last_named word.now }
{
    if word == b"0".as_slice() {
        Some(0)
    } else {
        let size = size_named(32767, word)?;
        Some((-(size as i32)) as i16)
    }
}

// At least so many digits of a fraction, and the position of the last one, where these are not fewer.
fn counts_by(least: Option<i16>, last: Option<i16>) -> Option<Places>
    ensures { result ≡ counts_by least last }
{
    let least = least?;
    let last = last?;
    if least as i32 <= -(last as i32) {
        Some(Places::Fraction(least, last))
    } else {
        None
    }
}

// The two counts of digits of a fraction that a text writes with a minus between.
fn counts_in(text: &[u8]) -> Option<Places>
    ensures { result ≡ counts_in (cut_at minus text.now) }
{
    let (least, most) = two_pieces(text, b'-')?;
    counts_by(count_named(least), last_named(most))
}

// The places that a word names: a position, or two counts of digits of a fraction.
fn places_named(word: &[u8]) -> Option<Places>
    ensures { result ≡ places_named word.now }
{
    let (first, rest) = word.split_first()?;
    if *first == b'f' {
        counts_in(rest)
    } else {
        let position = position_named(word)?;
        Some(Places::Position(position))
    }
}

// The words of modes.
const MODES: [(&[u8], SignedRoundingMode); 9] = [
    (
        b"expand",
        SignedRoundingMode::Unsigned(UnsignedRoundingMode::Expand),
    ),
    (
        b"trunc",
        SignedRoundingMode::Unsigned(UnsignedRoundingMode::Trunc),
    ),
    (b"ceil", SignedRoundingMode::Ceil),
    (b"floor", SignedRoundingMode::Floor),
    (
        b"half-expand",
        SignedRoundingMode::Unsigned(UnsignedRoundingMode::HalfExpand),
    ),
    (
        b"half-trunc",
        SignedRoundingMode::Unsigned(UnsignedRoundingMode::HalfTrunc),
    ),
    (b"half-ceil", SignedRoundingMode::HalfCeil),
    (b"half-floor", SignedRoundingMode::HalfFloor),
    (
        b"half-even",
        SignedRoundingMode::Unsigned(UnsignedRoundingMode::HalfEven),
    ),
];

/// The mode that a word names: `Floor` of `floor`. `None` where it names none, as `down`. It does not allocate.
pub fn mode_named(word: &[u8]) -> Option<SignedRoundingMode>
    ensures { result ≡ mode_named word.now }
{
    value_beside(&MODES, word)
}

// Whether nothing is said of a rounding.
pub(crate) fn keeps_digits(rounding: Rounding) -> bool
    ensures { result ≡ keeps_digits rounding }
{
    matches!(rounding, Rounding::Usual)
}

// Whether the digits of cash are asked for.
pub(crate) fn is_cash(rounding: Rounding) -> bool
    ensures { result ≡ is_cash rounding }
{
    matches!(rounding, Rounding::Cash)
}

// A rounding with all zeros that it shows.
fn all_of(rounding: Rounding) -> DigitsAsked
    ensures { result ≡ all_of rounding }
{
    DigitsAsked {
        rounding,
        leading_zeros: LeadingZeros::Keep,
        zeros: TrailingZeros::Keep,
        fraction_digits: 0,
    }
}

// The zeros in front: they stay, but those of a zero that an increment with zeros behind leaves.
fn front_by(increment: Increment) -> LeadingZeros
    ensures { result ≡ front_by increment }
{
    if increment.has_no_zeros() {
        LeadingZeros::Keep
    } else {
        LeadingZeros::TrimRoundedZero
    }
}

// The multiples of an increment, with the digits down to the position.
fn all_shown(
    position: i16,
    mode: SignedRoundingMode,
    increment: Increment,
    zeros: TrailingZeros,
) -> Option<DigitsAsked>
    ensures { result ≡ all_shown (front_by increment) zeros mode (multiples_at position increment) }
{
    let multiples = multiples_at(position, increment)?;
    Some(DigitsAsked {
        rounding: Rounding::At(multiples.position, mode, multiples.increment),
        leading_zeros: front_by(increment),
        zeros,
        fraction_digits: multiples.fraction_digits,
    })
}

// The digits that are shown: all zeros down to a position, or no zeros behind the least digits of a fraction.
fn digits_at(places: Places, mode: SignedRoundingMode, increment: Increment) -> Option<DigitsAsked>
    ensures { result ≡ digits_at places mode increment }
{
    match places {
        Places::Position(position) => all_shown(position, mode, increment, TrailingZeros::Keep),
        Places::Fraction(least, last) => {
            let asked = all_shown(last, mode, increment, TrailingZeros::Trim)?;
            Some(DigitsAsked {
                fraction_digits: least,
                ..asked
            })
        }
    }
}

// So many digits of a fraction, or none of a whole number.
fn whole_at(places: Places, mode: SignedRoundingMode, increment: Increment) -> Option<DigitsAsked>
    ensures { result ≡ whole_at places mode increment }
{
    match places {
        Places::Fraction(least, last) if -(last as i32) <= least as i32 => {
            all_shown(last, mode, increment, TrailingZeros::TrimWhole)
        }
        Places::Fraction(_, _) | Places::Position(_) => None,
    }
}

// What the words of a place, a mode and an increment ask for.
fn digits_by(places: &[u8], mode: &[u8], increment: &[u8]) -> Option<DigitsAsked>
    ensures { result ≡ digits_by (places_named places.now) (mode_named mode.now) (increment_named increment.now) }
{
    let places = places_named(places)?;
    let mode = mode_named(mode)?;
    let increment = increment_named(increment)?;
    digits_at(places, mode, increment)
}

// What they ask for where a whole number has no fraction.
fn whole_by(places: &[u8], mode: &[u8], increment: &[u8]) -> Option<DigitsAsked>
    ensures { result ≡ whole_by (places_named places.now) (mode_named mode.now) (increment_named increment.now) }
{
    let places = places_named(places)?;
    let mode = mode_named(mode)?;
    let increment = increment_named(increment)?;
    whole_at(places, mode, increment)
}

// So many significant digits, with the zeros that are shown.
fn significant_at(zeros: TrailingZeros, digits: &[u8], mode: &[u8]) -> Option<DigitsAsked>
    ensures { result ≡ significant_at zeros (significant_named digits.now) (mode_named mode.now) }
{
    let digits = significant_named(digits)?;
    let mode = mode_named(mode)?;
    Some(DigitsAsked {
        rounding: Rounding::Significant(digits, mode),
        leading_zeros: LeadingZeros::Keep,
        zeros,
        fraction_digits: 0,
    })
}

// So many digits of a fraction, or so many significant ones, by a priority.
fn either_at(
    zeros: TrailingZeros,
    places: Places,
    digits: SignificantDigits,
    priority: RoundingPriority,
    mode: SignedRoundingMode,
) -> Option<DigitsAsked>
    ensures { result ≡ either_at zeros places digits priority mode }
{
    match places {
        Places::Position(_) => None,
        Places::Fraction(least, last) => Some(DigitsAsked {
            rounding: Rounding::Either(priority, last, digits, mode),
            leading_zeros: LeadingZeros::Keep,
            zeros,
            fraction_digits: least,
        }),
    }
}

// What the words of a place, of significant digits, of a priority and of a mode ask for.
fn either_by(
    zeros: TrailingZeros,
    places: &[u8],
    digits: &[u8],
    priority: &[u8],
    mode: &[u8],
) -> Option<DigitsAsked>
    ensures { result
        ≡ either_by zeros (places_named places.now) (significant_named digits.now) (priority_named priority.now) (mode_named mode.now) }
{
    let places = places_named(places)?;
    let digits = significant_named(digits)?;
    let priority = priority_named(priority)?;
    let mode = mode_named(mode)?;
    either_at(zeros, places, digits, priority, mode)
}

// Whether a word says that a whole number has no fraction.
fn is_whole(word: &[u8]) -> bool
    ensures { result ≡ is_whole word.now }
{
    word == b"whole".as_slice()
}

// What three words ask for.
fn three_words(places: &[u8], mode: &[u8], last: &[u8]) -> Option<DigitsAsked>
    ensures { result ≡ digits_in (places.now ∷ mode.now ∷ last.now ∷ []) }
{
    if is_whole(last) {
        significant_at(TrailingZeros::TrimAll, places, mode)
    } else {
        digits_by(places, mode, last)
    }
}

// What four words ask for.
fn four_words(places: &[u8], second: &[u8], third: &[u8], last: &[u8]) -> Option<DigitsAsked>
    ensures { result ≡ digits_in (places.now ∷ second.now ∷ third.now ∷ last.now ∷ []) }
{
    if is_whole(last) {
        whole_by(places, second, third)
    } else {
        either_by(TrailingZeros::Trim, places, second, third, last)
    }
}

// What five words ask for.
fn five_words(
    places: &[u8],
    digits: &[u8],
    priority: &[u8],
    mode: &[u8],
    last: &[u8],
) -> Option<DigitsAsked>
    ensures { result ≡ digits_in (places.now ∷ digits.now ∷ priority.now ∷ mode.now ∷ last.now ∷ []) }
{
    if !is_whole(last) {
        return None;
    }
    either_by(TrailingZeros::TrimAll, places, digits, priority, mode)
}

// What the words between commas ask for, of which there are two to five.
fn digits_in(field: &[u8]) -> Option<DigitsAsked>
    ensures { result ≡ digits_in (cut_at comma field.now) }
{
    if let Some((digits, mode)) = two_pieces(field, COMMA) {
        return significant_at(TrailingZeros::Trim, digits, mode);
    }
    if let Some((places, mode, last)) = three_pieces(field, COMMA) {
        return three_words(places, mode, last);
    }
    if let Some((places, second, third, last)) = four_pieces(field, COMMA) {
        return four_words(places, second, third, last);
    }
    let (places, digits, priority, mode, last) = five_pieces(field, COMMA)?;
    five_words(places, digits, priority, mode, last)
}

// What a field asks for, where it is known: `-`, `cash`, or words between commas, as `-2,half-even,5` and `s1-3,half-even`.
pub(crate) fn rounding_named(field: &[u8]) -> Option<DigitsAsked>
    ensures { result ≡ rounding_named field.now }
{
    if field == b"-".as_slice() {
        Some(all_of(Rounding::Usual))
    } else if field == b"cash".as_slice() {
        Some(all_of(Rounding::Cash))
    } else {
        digits_in(field)
    }
}
