//! A text taken apart: digits, a fraction, an exponent.

ghost use Rattle.std.specs.Prelude.{◌≡◌, false, ◌++◌, [], IfSome, IfNone, IsTrue, ◌↔◌};
ghost use Rattle.fixed_decimal_unsigned.specs.NumberText.{AreDigits, after_point, SpellsExponent, Spells, IsNoText, minus_if};
ghost use Rattle.fixed_decimal_unsigned.specs.TextParts.{StartsNoDigit, StartsNoPoint, IsNoFraction, IsNoExponent, StartsNoMinus, IsMark};
ghost use Rattle.fixed_decimal_unsigned.specs.BorrowedParts.{parts_of};

use fixed_decimal_digits::digits_in_words;

// The parts of a text, borrowed from it.
#[derive(Clone, Copy)]
pub struct TextParts<'a> {
    pub integer: &'a [u8],
    pub fraction: &'a [u8],
    pub negative: bool,
    pub exponent: &'a [u8],
}

// The digits that a text begins with, and the rest.
#[tactic(auto, using(std::proofs::lemmas::Int::Digits::digits_more, std::proofs::lemmas::List::take_all))]
fn split_digits(text: &[u8]) -> (&[u8], &[u8])
    ensures whole { text.now ≡ result.0.now ++ result.1.now }
    ensures digits { AreDigits result.0.now }
    ensures rest { StartsNoDigit result.1.now }
{
    let mut count = digits_in_words(text);
    while count < text.len() {
        if !text[count].is_ascii_digit() {
            return (&text[..count], &text[count..]);
        }
        count += 1;
    }
    (text, &[])
}

// The digits after a point that the text begins with, none where it begins with no point, and the rest.
fn split_fraction(text: &[u8]) -> Option<(&[u8], &[u8])>
    requires { StartsNoDigit text.now }
    ensures some { IfSome result
        (λ r. (text.now ≡ after_point r.0.now ++ r.1.now) × AreDigits r.0.now × StartsNoDigit r.1.now) }
    ensures point { IfSome result (λ r. r.0.now ≡ [] → StartsNoPoint r.1.now) }
    ensures none { IfNone result (IsNoFraction text.now) }
{
    let Some((first, tail)) = text.split_first() else {
        return Some((&[], text));
    };
    if *first != b'.' {
        return Some((&[], text));
    }
    let (fraction, rest) = split_digits(tail);
    if fraction.is_empty() {
        return None;
    }
    Some((fraction, rest))
}

// The sign and the digits of an exponent that makes up the whole text.
fn split_exponent(text: &[u8]) -> Option<(bool, &[u8])>
    ensures some { IfSome result (λ r. SpellsExponent text.now r.0 r.1.now) }
    ensures none { IfNone result (IsNoExponent text.now) }
{
    let Some((mark, tail)) = text.split_first() else {
        return Some((false, &[]));
    };
    if !is_mark(*mark) {
        return None;
    }
    let (negative, behind) = split_minus(tail);
    let (digits, rest) = split_digits(behind);
    if digits.is_empty() {
        return None;
    }
    if !rest.is_empty() {
        return None;
    }
    Some((negative, digits))
}

// Whether a character marks an exponent.
fn is_mark(c: u8) -> bool
    ensures { IsTrue result ↔ IsMark c }
{
    c == b'e' || c == b'E'
}

impl<'a> TextParts<'a> {
    // The parts of a text.
    pub fn of(text: &'a [u8]) -> Option<TextParts<'a>>
        ensures some { IfSome result (λ p. Spells text.now (parts_of p)) }
        ensures none { IfNone result (IsNoText text.now) }
    {
        let (integer, rest) = split_digits(text);
        let Some((fraction, last)) = split_fraction(rest) else {
            return None;
        };
        let Some((negative, exponent)) = split_exponent(last) else {
            return None;
        };
        if integer.is_empty() && fraction.is_empty() {
            return None;
        }
        Some(TextParts {
            integer,
            fraction,
            negative,
            exponent,
        })
    }
}

// The text without a minus that it begins with, and whether there was one.
fn split_minus(text: &[u8]) -> (bool, &[u8])
    ensures whole { text.now ≡ minus_if result.0 ++ result.1.now }
    ensures none { result.0 ≡ false → StartsNoMinus result.1.now }
{
    match text.split_first() {
        Some((first, tail)) if *first == b'-' => (true, tail),
        _ => (false, text),
    }
}
