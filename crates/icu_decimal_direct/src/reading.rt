//! Reading the digits of a number's text.

ghost use Rattle.std.specs.Prelude.{◌≡◌, ℕ, ◌+◌, ◌<◌, ◌≤◌, List, ◌++◌, drop, length, slice_index, take, IfSome, IsSome};
ghost use Rattle.std.specs.Char.{digit_value};
ghost use Rattle.fixed_decimal.specs.NumberText.{AreDigits, Reads, after_point};
ghost use Rattle.fixed_decimal.specs.SignedText.{ReadsSigned};
ghost use Rattle.icu_decimal_direct.specs.FewDigits.{AreFewDigits, IsFewText, plain_number};
ghost use Rattle.icu_decimal_direct.specs.Lanes.{first_set};
ghost use Rattle.icu_decimal_direct.specs.TextDigits.{number_spelled};

use crate::text_digits::TextDigits;
use fixed_decimal::Sign;
use std::simd::prelude::*;

// How many digits a text may have on each side of its point.
const FEW: usize = 32;

// How many bytes it then has at most, without its sign.
const LONGEST: usize = 65;

// The place of the lowest bit that is set in a mask of so many lanes, and their count where none is.
#[inline(always)]
pub(crate) fn first_set(mask: u64, lanes: usize) -> usize
    ensures { result ≡ first_set mask lanes }
{
    if mask == 0 {
        lanes
    } else {
        mask.trailing_zeros() as usize
    }
}

// How many digits the four bytes from a place on begin with.
#[inline(always)]
fn digits_in_four(text: &[u8], from: usize) -> usize
    requires { from + 4 ≤ length text.now }
    ensures few { result ≤ 4 }
    ensures digits { AreDigits (take result (drop from text.now)) }
    ensures stops { result < 4 → 10 ≤ digit_value (slice_index text.now (from + result)) }
{
    let values = u8x4::from_slice(&text[from..]) - u8x4::splat(b'0');
    first_set(values.simd_ge(u8x4::splat(10)).to_bitmask(), 4)
}

// How many digits the eight bytes from a place on begin with.
#[inline(always)]
fn digits_in_eight(text: &[u8], from: usize) -> usize
    requires { from + 8 ≤ length text.now }
    ensures few { result ≤ 8 }
    ensures digits { AreDigits (take result (drop from text.now)) }
    ensures stops { result < 8 → 10 ≤ digit_value (slice_index text.now (from + result)) }
{
    let values = u8x8::from_slice(&text[from..]) - u8x8::splat(b'0');
    first_set(values.simd_ge(u8x8::splat(10)).to_bitmask(), 8)
}

// How many digits a text begins with, after so many that are known.
#[inline(always)]
#[tactic(auto, using(std::proofs::lemmas::Int::Digits::digits_more, std::proofs::lemmas::List::take_all))]
fn digits_from(text: &[u8], from: usize) -> usize
    requires known { AreDigits (take from text.now) }
    requires within { from ≤ length text.now }
    ensures within { result ≤ length text.now }
    ensures digits { AreDigits (take result text.now) }
    ensures stops { result < length text.now → 10 ≤ digit_value (slice_index text.now result) }
{
    let mut count = from;
    while count < text.len() {
        if !text[count].is_ascii_digit() {
            return count;
        }
        count += 1;
    }
    count
}

// How many digits a text of at most seven bytes begins with, by four where it has as many: the last four lap over the first
// ones.
#[inline(always)]
fn digits_ahead_few(text: &[u8]) -> usize
    requires { length text.now ≤ 8 }
    ensures within { result ≤ length text.now }
    ensures digits { AreDigits (take result text.now) }
    ensures stops { result < length text.now → 10 ≤ digit_value (slice_index text.now result) }
{
    if text.len() < 4 {
        return digits_from(text, 0);
    }
    let first = digits_in_four(text, 0);
    if first < 4 {
        return first;
    }
    let last = text.len() - 4;
    let more = digits_in_four(text, last);
    last + more
}

// How many digits a text begins with, by eights where it has as many bytes: below sixteen the last eight lap over the first
// ones.
#[inline(always)]
#[tactic(auto, using(crate::proofs::LaneLemmas::digits_both_eights))]
fn digits_ahead(text: &[u8]) -> usize
    ensures within { result ≤ length text.now }
    ensures digits { AreDigits (take result text.now) }
    ensures stops { result < length text.now → 10 ≤ digit_value (slice_index text.now result) }
{
    if text.len() < 8 {
        return digits_ahead_few(text);
    }
    let first = digits_in_eight(text, 0);
    if first < 8 {
        return first;
    }
    if text.len() < 16 {
        let last = text.len() - 8;
        let lapping = digits_in_eight(text, last);
        return last + lapping;
    }
    let more = digits_in_eight(text, 8);
    if more < 8 {
        return 8 + more;
    }
    digits_from(text, 16)
}

// The digits of a text without a sign, with this sign. `None`: it is another text, or has more digits.
#[inline(always)]
fn digits_of(text: &[u8], sign: Sign) -> Option<TextDigits<'_>>
    ensures sign { IfSome result (λ digits. digits.sign ≡ sign) }
    ensures reads { IfSome result (λ digits. Reads text.now (plain_number digits.integer.now digits.fraction.now)) }
    ensures some { (integer fraction : List ℕ) → text.now ≡ integer ++ after_point fraction
        → AreFewDigits integer fraction → IsSome result }
{
    if text.len() > LONGEST {
        return None;
    }
    let above = digits_ahead(text);
    if above == 0 || above > FEW {
        return None;
    }
    let integer = &text[..above];
    if above == text.len() {
        return Some(TextDigits {
            sign,
            integer,
            fraction: &[],
        });
    }
    let fraction = &text[above + 1..];
    if text[above] != b'.' || fraction.is_empty() || fraction.len() > FEW {
        return None;
    }
    if digits_ahead(fraction) < fraction.len() {
        return None;
    }
    Some(TextDigits {
        sign,
        integer,
        fraction,
    })
}

impl<'t> TextDigits<'t> {
    /// The digits of a text: of `-1234.5` the digits `1234` and `5`, with a minus.
    ///
    /// `None` exactly where the text is another one, as `1e3`, `5.` and `.5` are, or has more digits. It does not
    /// allocate.
    #[inline(always)]
    pub fn of(text: &'t [u8]) -> Option<TextDigits<'t>>
        ensures reads { IfSome result (λ digits. ReadsSigned text.now (number_spelled digits)) }
        ensures some { IsFewText text.now → IsSome result }
    {
        match text.split_first() {
            Some((first, rest)) if *first == b'-' => digits_of(rest, Sign::Negative),
            Some((first, rest)) if *first == b'+' => digits_of(rest, Sign::Positive),
            _ => digits_of(text, Sign::None),
        }
    }
}
