//! Words of increments: 1, 2, 5 or 25 of a place, as a decimal number.

ghost use Rattle.std.specs.Prelude.{◌≡◌, ◌++◌, ◌∷◌, length};
ghost use Rattle.std.specs.Char.{is_ascii_digit};
ghost use Rattle.std.specs.List.{list_all};
ghost use Rattle.locale_numbers_formats.specs.IncrementWords.{digits_setting, from_first, from_two, increment_setting, is_zero, number_setting, other_step, parts_setting, step_of, zeros_behind};

use crate::cutting::first_separator;
use crate::marks::{MOST, leading};
use crate::skeleton_error::WordFault;
use crate::stems::{Precision, Setting, WholeZeros};
use fixed_decimal::RoundingIncrement;

// Whether each byte is a zero.
fn are_zeros(text: &[u8]) -> bool
    ensures { result ≡ list_all is_zero text.now }
{
    text.iter().all(|byte| *byte == b'0')
}

// Whether each byte is a digit.
fn are_digits(text: &[u8]) -> bool
    ensures { result ≡ list_all is_ascii_digit text.now }
{
    text.iter().all(|byte| byte.is_ascii_digit())
}

// An increment that zeros are behind, in a text and its rest, and how many.
#[tactic(auto, using(crate::proofs::IncrementLemmas::behind_is))]
fn zeros_behind(
    step: RoundingIncrement,
    text: &[u8],
    rest: &[u8],
) -> Option<(RoundingIncrement, usize)>
    ensures { result ≡ zeros_behind step (text.now ++ rest.now) }
{
    if are_zeros(text) && are_zeros(rest) {
        Some((step, text.len() + rest.len()))
    } else {
        None
    }
}

// What is counted by a 2 before a text and its rest, and how many zeros are behind.
#[tactic(auto, using(crate::proofs::IncrementLemmas::alone))]
fn from_two(text: &[u8], rest: &[u8]) -> Option<(RoundingIncrement, usize)>
    ensures { result ≡ from_two (text.now ++ rest.now) }
{
    match text.split_first() {
        None => match rest.split_first() {
            Some((next, zeros)) if *next == b'5' => {
                zeros_behind(RoundingIncrement::MultiplesOf25, zeros, &[])
            }
            _ => zeros_behind(RoundingIncrement::MultiplesOf2, rest, &[]),
        },
        Some((next, zeros)) => {
            if *next == b'5' {
                zeros_behind(RoundingIncrement::MultiplesOf25, zeros, rest)
            } else {
                zeros_behind(RoundingIncrement::MultiplesOf2, text, rest)
            }
        }
    }
}

// What is counted by a first digit before a text and its rest, and how many zeros are behind.
fn step_of(first: u8, text: &[u8], rest: &[u8]) -> Option<(RoundingIncrement, usize)>
    ensures { result ≡ step_of (first ∷ (text.now ++ rest.now)) }
{
    if first == b'1' {
        zeros_behind(RoundingIncrement::MultiplesOf1, text, rest)
    } else if first == b'2' {
        from_two(text, rest)
    } else if first == b'5' {
        zeros_behind(RoundingIncrement::MultiplesOf5, text, rest)
    } else {
        None
    }
}

// What is told of another number.
#[tactic(auto, using(crate::proofs::IncrementLemmas::digits_in_both))]
fn other_step(first: u8, text: &[u8], rest: &[u8]) -> Setting
    ensures { result ≡ other_step (first ∷ (text.now ++ rest.now)) }
{
    if first.is_ascii_digit() && are_digits(text) && are_digits(rest) {
        Setting::Refused(WordFault::Unsupported)
    } else {
        Setting::Refused(WordFault::Unknown)
    }
}

// What a first digit sets before a text and its rest, with so many digits after the point.
fn digits_setting(whole: WholeZeros, digits: usize, first: u8, text: &[u8], rest: &[u8]) -> Setting
    ensures { result ≡ digits_setting whole digits (first ∷ (text.now ++ rest.now)) }
{
    match step_of(first, text, rest) {
        None => other_step(first, text, rest),
        Some((step, zeros)) => {
            if zeros > MOST || digits > MOST {
                Setting::Refused(WordFault::Unsupported)
            } else {
                Setting::OfPrecision(Precision::Increment(step, zeros as u8, digits as u8, whole))
            }
        }
    }
}

// Digits without the zeros in front.
fn from_first(text: &[u8]) -> &[u8]
    ensures { result.now ≡ from_first text.now }
{
    &text[leading(text, b'0')..]
}

// What digits after a point set, where zeros alone are before it.
fn fraction_setting(whole: WholeZeros, fraction: &[u8]) -> Setting
    ensures { result ≡ digits_setting whole (length fraction.now) (from_first fraction.now) }
{
    match from_first(fraction).split_first() {
        None => Setting::Refused(WordFault::Unknown),
        Some((first, behind)) => digits_setting(whole, fraction.len(), *first, behind, &[]),
    }
}

// What digits before a point and after it set.
fn parts_setting(whole: WholeZeros, front: &[u8], fraction: &[u8]) -> Setting
    ensures { result ≡ parts_setting whole front.now fraction.now }
{
    match from_first(front).split_first() {
        None => fraction_setting(whole, fraction),
        Some((first, behind)) => digits_setting(whole, fraction.len(), *first, behind, fraction),
    }
}

// What a number sets, with a point or without.
fn number_setting(whole: WholeZeros, number: &[u8]) -> Setting
    ensures { result ≡ number_setting whole number.now }
{
    match first_separator(number, b'.') {
        None => parts_setting(whole, number, &[]),
        Some(end) => parts_setting(whole, &number[..end], &number[end + 1..]),
    }
}

// What follows `precision-increment/`: a number, or one with `/w` behind it.
pub(crate) fn increment_setting(option: &[u8]) -> Setting
    ensures { result ≡ increment_setting option.now }
{
    match first_separator(option, b'/') {
        None => number_setting(WholeZeros::Shown, option),
        Some(end) => {
            if &option[end + 1..] == b"w".as_slice() {
                number_setting(WholeZeros::Hidden, &option[..end])
            } else {
                Setting::Refused(WordFault::Unknown)
            }
        }
    }
}
