//! Decimal separators with no digit on one side, filled.

ghost use Rattle.std.specs.Prelude.{◌≡◌, ◌++◌, ◌&&◌, true, IfOk, OnOk, is_none, is_some, string_bytes};
ghost use Rattle.std.specs.List.{list_all};
ghost use Rattle.std.specs.Str.{chars, encode_utf8_all};
ghost use Rattle.icu_decimal_lenient.specs.Folding.{plain_digits};
ghost use Rattle.icu_decimal_lenient.specs.LenientReading.{filled_text, past_separator, without_point};
ghost use Rattle.icu_decimal_reading.specs.PlainReading.{begins_fraction};
ghost use Rattle.icu_decimal_reading.specs.Readable.{all_differ, digit_of};

use crate::folding::put;
use icu_decimal_reading::digits::{does_fraction_follow, has_none, is_digit, split_character};
use std::alloc::{AllocError, Global};

// The digits of ASCII.
const PLAIN_DIGITS: [char; 10] = ['0', '1', '2', '3', '4', '5', '6', '7', '8', '9'];

// The digits of ASCII, which differ.
pub(crate) fn digits() -> &'static [char; 10]
    ensures value { result.now ≡ plain_digits }
    ensures differ { all_differ result.now ≡ true }
{
    &PLAIN_DIGITS
}

// Puts a text after another.
fn put_text(out: &mut String, text: &str) -> Result<(), AllocError>
    ensures { OnOk result (string_bytes out.new ≡ string_bytes out.old ++ encode_utf8_all (chars text.now)) }
{
    out.push_str(text)
}

// The text without the separator at its front.
#[tactic(auto, using(crate::proofs::FillStepLemmas::past_more, crate::proofs::FillStepLemmas::past_apart, crate::proofs::FillStepLemmas::past_short, crate::proofs::FillStepLemmas::past_end))]
fn skip_separator<'t>(separator: &str, text: &'t str) -> &'t str
    ensures { chars result.now ≡ past_separator (chars text.now) (chars separator.now) (chars text.now) }
{
    let mut left = text;
    let mut wanted = separator;
    while let Some((character, more)) = split_character(wanted) {
        let Some((found, rest)) = split_character(left) else {
            return text;
        };
        if found != character {
            return text;
        }
        wanted = more;
        left = rest;
    }
    left
}

// Whether a character is the last digit, before these.
fn is_last_digit(character: char, rest: &str) -> bool
    ensures { result ≡ (is_some (digit_of plain_digits character)
        && list_all (λ d. is_none (digit_of plain_digits d)) (chars rest.now)) }
{
    is_digit(digits(), character) && has_none(digits(), rest)
}

// Whether a character is a digit, and a fraction begins after it.
fn does_end_whole(separator: &str, character: char, rest: &str) -> bool
    ensures { result ≡ (is_some (digit_of plain_digits character)
        && begins_fraction plain_digits (chars separator.now) (chars rest.now)) }
{
    is_digit(digits(), character) && does_fraction_follow(digits(), separator, rest)
}

// Puts a text after another, without the separator directly after its last digit.
#[tactic(auto, using(crate::proofs::FillStepLemmas::point_before, crate::proofs::FillStepLemmas::point_last, crate::proofs::FillStepLemmas::point_other, crate::proofs::FillStepLemmas::point_end))]
fn put_without_point(out: &mut String, separator: &str, text: &str) -> Result<(), AllocError>
    ensures { OnOk result (string_bytes out.new
        ≡ string_bytes out.old ++ encode_utf8_all (without_point (chars separator.now) (chars text.now))) }
{
    let mut left = text;
    while let Some((character, rest)) = split_character(left) {
        put(out, character)?;
        if does_end_whole(separator, character, rest) {
            return put_text(out, rest);
        }
        if is_last_digit(character, rest) {
            return put_text(out, skip_separator(separator, rest));
        }
        left = rest;
    }
    Ok(())
}

// Puts a text after another, filled. Where its first digit follows a separator directly, a zero before that is all.
#[tactic(auto, using(crate::proofs::FillStepLemmas::filled_digit, crate::proofs::FillStepLemmas::filled_here, crate::proofs::FillStepLemmas::filled_other, crate::proofs::FillStepLemmas::filled_end))]
fn put_filled(out: &mut String, separator: &str, text: &str) -> Result<(), AllocError>
    ensures { OnOk result (string_bytes out.new ≡ string_bytes out.old ++ filled_text separator.now text.now) }
{
    let mut left = text;
    while let Some((character, rest)) = split_character(left) {
        if is_digit(digits(), character) {
            return put_without_point(out, separator, left);
        }
        if does_fraction_follow(digits(), separator, left) {
            put(out, '0')?;
            return put_text(out, left);
        }
        put(out, character)?;
        left = rest;
    }
    Ok(())
}

// A folded text, filled.
pub(crate) fn fill(alloc: Global, separator: &str, text: &str) -> Result<String, AllocError>
    ensures { IfOk result (λ filled. string_bytes filled ≡ filled_text separator.now text.now) }
{
    let mut filled = String::with_capacity(alloc, text.len())?;
    put_filled(&mut filled, separator, text)?;
    Ok(filled)
}
