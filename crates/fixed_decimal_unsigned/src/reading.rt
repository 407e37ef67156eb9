//! Reading a text: the range that its digits and its exponent name, and the digits kept.

ghost use Rattle.std.specs.Prelude.{ℕ, ◌≡◌, ◌+◌, ◌-◌, ◌*◌, ◌^◌, ◌%◌, ◌<◌, ◌≤◌, ◌==◌, ◌++◌, ◌||◌, min, max, cond, length, slice_index, IfOk, IfSome, IfNone, OnOk, OnErr, IsErrOf};
ghost use Rattle.std.specs.Int.Digits.{number_from_digits, AllBelowBase};
ghost use Rattle.std.specs.Char.{digit_value};
ghost use Rattle.fixed_decimal_unsigned.specs.NumberText.{AreDigits, spelled, AreEndsIn, IsWithin, number_of, Reads, ReadsLong, ReadsLonger, IsBeyond, IsNoText};
ghost use Rattle.fixed_decimal_unsigned.specs.BorrowedParts.{parts_of};
ghost use Rattle.fixed_decimal_unsigned.specs.DigitCount.{HoldsDigits, IsLong};
ghost use Rattle.fixed_decimal_unsigned.specs.Stored.{IsStored};
ghost use Rattle.fixed_decimal_digits.specs.DigitList.{IsTight, count_of};
ghost use Rattle.fixed_decimal_digits.specs.InlineDigits.{inline_digits};

use crate::error::ParseError;
use crate::short_text::{ShortText, read_short};
use crate::text_parts::TextParts;
use crate::unsigned_decimal::UnsignedDecimal;
use fixed_decimal_digits::{Digits, ONES, assign_texts, digit_of};
use std::alloc::{AllocError, Global};

// No exponent in range reaches this; a larger one is read as this.
const EXPONENT_CAP: usize = 65536;

/// The number that digits spell, or 65536 where it is larger: 12 of `012`. The condition is that each byte is a digit.
/// It does not allocate.
#[tactic(auto, using(crate::proofs::SpelledLemmas::digits_at, crate::proofs::SpelledLemmas::capped_more))]
pub fn capped_number(text: &[u8]) -> usize
    requires { AreDigits text.now }
    ensures { result ≡ min (spelled text.now) 65536 }
{
    let mut number = 0usize;
    for c in text {
        number = (number * 10 + digit_of(*c) as usize).min(EXPONENT_CAP);
    }
    number
}

// The text without the zeros that it ends in.
#[tactic(auto, using(crate::proofs::SpelledLemmas::digits_front, crate::proofs::SpelledLemmas::value_front, crate::proofs::SpelledLemmas::value_last))]
fn without_end_zeros(text: &[u8]) -> &[u8]
    requires { AreDigits text.now }
    ensures digits { AreDigits result.now }
    ensures length { length result.now ≤ length text.now }
    ensures value { spelled text.now ≡ spelled result.now * 10 ^ (length text.now - length result.now) }
    ensures last { 0 < length result.now → 0 < spelled result.now % 10 }
{
    let mut kept = text;
    while let Some((last, front)) = kept.split_last() {
        if *last != b'0' {
            return kept;
        }
        kept = front;
    }
    kept
}

// The text without the zeros that it begins with.
#[tactic(auto, using(crate::proofs::SpelledLemmas::digits_after, crate::proofs::SpelledLemmas::value_behind, crate::proofs::SpelledLemmas::front_positive))]
fn without_front_zeros(text: &[u8]) -> &[u8]
    requires { AreDigits text.now }
    ensures digits { AreDigits result.now }
    ensures length { length result.now ≤ length text.now }
    ensures value { spelled text.now ≡ spelled result.now }
    ensures first { 0 < length result.now → 0 < digit_value (slice_index result.now 0) }
{
    let mut kept = text;
    while let Some((first, rest)) = kept.split_first() {
        if *first != b'0' {
            return kept;
        }
        kept = rest;
    }
    kept
}

// The places of the first and the last digit of a mantissa.
#[derive(Clone, Copy)]
pub struct Ends {
    pub first: u16,
    pub last: u16,
}

// Both ends of `above` digits above the point and `below` digits below it, moved up or down.
pub fn moved_ends(above: usize, below: usize, up: usize, down: usize) -> Option<Ends>
    requires some { 0 < above + below }
    requires up { up ≤ 65536 }
    requires down { down ≤ 65536 }
    ensures within { IfSome result (λ e. AreEndsIn above below up down) }
    ensures first { IfSome result (λ e. e.first + (down + 1) ≡ 32768 + up + above) }
    ensures last { IfSome result (λ e. e.last + (below + down) ≡ 32768 + up) }
    ensures beyond { IfNone result (¬ (AreEndsIn above below up down)) }
{
    if up > 32767 || down > 32768 || above > 65536 || below > 65536 {
        return None;
    }
    if above + up > 32768 + down || below + down > 32768 + up {
        return None;
    }
    let first = 32768 + up + above - down - 1;
    let last = 32768 + up - below - down;
    Some(Ends {
        first: first as u16,
        last: last as u16,
    })
}

// Both parts of a mantissa without the zeros at its end.
#[tactic(auto, using(crate::proofs::MantissaLemmas::mantissa_kept_both, crate::proofs::MantissaLemmas::mantissa_kept_integer, crate::proofs::MantissaLemmas::mantissa_last, crate::proofs::MantissaLemmas::spelled_front_only))]
fn without_mantissa_zeros<'a>(integer: &'a [u8], fraction: &'a [u8]) -> (&'a [u8], &'a [u8])
    requires integer_digits { AreDigits integer.now }
    requires fraction_digits { AreDigits fraction.now }
    ensures integer_digits { AreDigits result.0.now }
    ensures fraction_digits { AreDigits result.1.now }
    ensures integer_length { length result.0.now ≤ length integer.now }
    ensures fraction_length { length result.1.now ≤ length fraction.now }
    ensures value { spelled (integer.now ++ fraction.now)
        ≡ spelled (result.0.now ++ result.1.now) * 10 ^
        (length integer.now + length fraction.now - (length result.0.now + length result.1.now)) }
    ensures last { 0 < length result.0.now + length result.1.now → 0 < spelled (result.0.now ++ result.1.now) % 10 }
{
    let kept = without_end_zeros(fraction);
    if kept.is_empty() {
        (without_end_zeros(integer), kept)
    } else {
        (integer, kept)
    }
}

// Both parts of a mantissa without the zeros that it begins with.
#[tactic(auto, using(crate::proofs::MantissaLemmas::front_kept, crate::proofs::MantissaLemmas::front_dropped))]
fn without_leading_zeros<'a>(integer: &'a [u8], fraction: &'a [u8]) -> (&'a [u8], &'a [u8])
    requires integer_digits { AreDigits integer.now }
    requires fraction_digits { AreDigits fraction.now }
    ensures integer_digits { AreDigits result.0.now }
    ensures fraction_digits { AreDigits result.1.now }
    ensures integer_length { length result.0.now ≤ length integer.now }
    ensures fraction_length { length result.1.now ≤ length fraction.now }
    ensures value { spelled (integer.now ++ fraction.now) ≡ spelled (result.0.now ++ result.1.now) }
    ensures integer_first { 0 < length result.0.now → 0 < digit_value (slice_index result.0.now 0) }
    ensures fraction_first { length result.0.now ≡ 0 → 0 < length result.1.now
        → 0 < digit_value (slice_index result.1.now 0) }
{
    let kept = without_front_zeros(integer);
    if kept.is_empty() {
        (kept, without_front_zeros(fraction))
    } else {
        (kept, fraction)
    }
}

// Replaces the digits by those of two texts, one after the other.
fn gather(digits: &mut Digits, integer: &[u8], fraction: &[u8]) -> Result<(), AllocError>
    requires integer_digits { AreDigits integer.now }
    requires fraction_digits { AreDigits fraction.now }
    requires integer_short { length integer.now ≤ 65536 }
    requires fraction_short { length fraction.now ≤ 65536 }
    ensures value { OnOk result (number_from_digits 10 digits.new.items ≡ spelled (integer.now ++ fraction.now)) }
    ensures tens { OnOk result (AllBelowBase 10 digits.new.items) }
    ensures first { OnOk result (0 < length digits.new.items → 0 < slice_index digits.new.items 0) }
    ensures length { OnOk result (length digits.new.items ≤ length integer.now + length fraction.now) }
    ensures err { OnErr result (digits.new ≡ digits.old) }
    ensures room { OnErr result (10 ^ inline_digits ≤ spelled (integer.now ++ fraction.now)) }
    ensures kept { OnErr result (10 ^ length digits.old.items ≤ spelled (integer.now ++ fraction.now)) }
{
    let _room = digits.len(); // for the proof
    let (whole, rest) = without_leading_zeros(integer, fraction);
    assign_texts(digits, whole, rest)?;
    Ok(())
}

// How far an exponent moves a mantissa up and down; that of zero does not move it.
fn moves_of(is_zero: bool, negative: bool, exponent: &[u8]) -> (usize, usize)
    requires { AreDigits exponent.now }
    ensures up { result.0 ≡ min (cond (is_zero || negative) 0 (spelled exponent.now)) 65536 }
    ensures down { result.1 ≡ min (cond is_zero 0 (cond negative (spelled exponent.now) 0)) 65536 }
{
    if is_zero {
        return (0, 0);
    }
    let number = capped_number(exponent);
    if negative { (0, number) } else { (number, 0) }
}

// The place of the first digit kept, and those of the lowest and the highest digit shown.
#[derive(Clone, Copy)]
pub struct Places {
    pub top: u16,
    pub low: u16,
    pub high: u16,
}

// The places of digits of which the last is `zeros` places above the end of their mantissa.
pub fn places_of(digits: &Digits, zeros: usize, ends: Ends) -> Places
    requires tight { IsTight digits.now.items }
    requires room { ends.last + zeros + length digits.now.items ≤ ends.first + 1 }
    ensures stored { IsStored digits.now.items result.top result.low result.high }
    ensures count { count_of digits.now.items result.top
        ≡ number_from_digits 10 digits.now.items * 10 ^ (ends.last + zeros) }
    ensures low { result.low ≡ min 32768 ends.last }
    ensures high { result.high ≡ max 32768 ends.first }
{
    let top = if digits.is_empty() {
        ONES
    } else {
        (ends.last as usize + zeros + digits.len() - 1) as u16
    };
    Places {
        top,
        low: ends.last.min(ONES),
        high: ends.first.max(ONES),
    }
}

// The number of digits of which the last is `zeros` places above the end of its mantissa.
pub fn assembled(digits: Digits, zeros: usize, ends: Ends) -> UnsignedDecimal
    requires tight { IsTight digits.items }
    requires room { ends.last + zeros + length digits.items ≤ ends.first + 1 }
    ensures count { result.count ≡ number_from_digits 10 digits.items * 10 ^ (ends.last + zeros) }
    ensures low { result.low ≡ min 32768 ends.last }
    ensures high { result.high ≡ max 32768 ends.first }
{
    let places = places_of(&digits, zeros, ends);
    UnsignedDecimal {
        digits,
        top: places.top,
        low: places.low,
        high: places.high,
    }
}

// Whether no digits are left of a mantissa.
fn is_none(integer: &[u8], fraction: &[u8]) -> bool
    ensures { result ≡ (length integer.now + length fraction.now == 0) }
{
    integer.is_empty() && fraction.is_empty()
}

// Replaces the digits by those of a text's parts, and returns their places.
fn read_parts(digits: &mut Digits, parts: &TextParts<'_>) -> Result<Places, ParseError>
    requires integer { AreDigits parts.now.integer.now }
    requires fraction { AreDigits parts.now.fraction.now }
    requires exponent { AreDigits parts.now.exponent.now }
    requires some { 0 < length parts.now.integer.now + length parts.now.fraction.now }
    ensures within { OnOk result (IsWithin (parts_of parts.now)) }
    ensures stored { IfOk result (λ p. IsStored digits.new.items p.top p.low p.high) }
    ensures value { IfOk result
        (λ p. record { count = count_of digits.new.items p.top; low = p.low; high = p.high }
        ≡ number_of (parts_of parts.now)) }
    ensures err { OnErr result (digits.new ≡ digits.old) }
    ensures limit { IsErrOf result ParseError.Limit → ¬ (IsWithin (parts_of parts.now)) }
    ensures syntax { ¬ (IsErrOf result ParseError.Syntax) }
    ensures memory_within { IsErrOf result ParseError.Memory → IsWithin (parts_of parts.now) }
    ensures memory { IsErrOf result ParseError.Memory → IsLong (number_of (parts_of parts.now)).count }
    ensures kept { IsErrOf result ParseError.Memory → (low : ℕ)
        → ¬ (HoldsDigits (number_of (parts_of parts.now)).count low (length digits.old.items)) }
{
    let (integer, fraction) = without_mantissa_zeros(parts.integer, parts.fraction);
    let (up, down) = moves_of(is_none(integer, fraction), parts.negative, parts.exponent);
    let Some(ends) = moved_ends(parts.integer.len(), parts.fraction.len(), up, down) else {
        return Err(ParseError::Limit);
    };
    let zeros = parts.integer.len() + parts.fraction.len() - integer.len() - fraction.len();
    gather(digits, integer, fraction)?;
    Ok(places_of(digits, zeros, ends))
}

// Replaces the digits by those of a text, and returns their places.
fn read_text(digits: &mut Digits, text: &[u8]) -> Result<Places, ParseError>
    ensures stored { IfOk result (λ p. IsStored digits.new.items p.top p.low p.high) }
    ensures value { IfOk result
        (λ p. Reads text.now (record { count = count_of digits.new.items p.top; low = p.low; high = p.high })) }
    ensures err { OnErr result (digits.new ≡ digits.old) }
    ensures syntax { IsErrOf result ParseError.Syntax → IsNoText text.now }
    ensures limit { IsErrOf result ParseError.Limit → IsBeyond text.now }
    ensures memory { IsErrOf result ParseError.Memory → ReadsLong text.now }
    ensures kept { IsErrOf result ParseError.Memory → (other low : ℕ) → HoldsDigits other low (length digits.old.items)
        → ReadsLonger text.now other }
{
    if let Some(short) = ShortText::of(text) {
        return Ok(read_short(digits, short));
    }
    let Some(parts) = TextParts::of(text) else {
        return Err(ParseError::Syntax);
    };
    read_parts(digits, &parts)
}

impl UnsignedDecimal {
    /// The number that a text spells: `12.30` is 12.3, shown from magnitude 1 down to -2.
    ///
    /// `Syntax` where the text spells no number (`5.`). `Limit` where it spells one that passes magnitudes -32768 to
    /// 32767 (`1e32768`). `Memory`: out of memory, only where there are more than sixteen digits, from the first to the
    /// last one that is not zero.
    pub fn try_from_utf8(alloc: Global, code_units: &[u8]) -> Result<UnsignedDecimal, ParseError>
        ensures syntax { IsErrOf result ParseError.Syntax → IsNoText code_units.now }
        ensures limit { IsErrOf result ParseError.Limit → IsBeyond code_units.now }
        ensures memory { IsErrOf result ParseError.Memory → ReadsLong code_units.now }
        ensures value { IfOk result (λ v. Reads code_units.now v) }
    {
        let mut digits = Digits::new(alloc);
        match read_text(&mut digits, code_units) {
            Ok(places) => Ok(UnsignedDecimal {
                digits,
                top: places.top,
                low: places.low,
                high: places.high,
            }),
            Err(refused) => Err(refused),
        }
    }

    /// Replaces this number by the one that a text spells: 5 and `12.30` give `12.30`.
    ///
    /// The errors are those of `try_from_utf8`; after each the number is as before. The call reuses the memory of the
    /// number. It allocates only where the text spells a number of more than sixteen digits, from the first to the last
    /// one that is not zero, and of more digits than this number.
    pub fn assign_from_utf8(&mut self, code_units: &[u8]) -> Result<(), ParseError>
        ensures syntax { IsErrOf result ParseError.Syntax → IsNoText code_units.now }
        ensures limit { IsErrOf result ParseError.Limit → IsBeyond code_units.now }
        ensures memory { IsErrOf result ParseError.Memory → ReadsLong code_units.now }
        ensures value { OnOk result (Reads code_units.now self.new) }
        ensures err { OnErr result (self.new ≡ self.old) }
        ensures room { IsErrOf result ParseError.Memory → ReadsLonger code_units.now self.old.count }
    {
        match read_text(&mut self.digits, code_units) {
            Ok(places) => {
                self.top = places.top;
                self.low = places.low;
                self.high = places.high;
                Ok(())
            }
            Err(refused) => Err(refused),
        }
    }

    /// The number that a text spells, and the errors, as `try_from_utf8` has them of its bytes: `12.30` is 12.3, shown
    /// from magnitude 1 down to -2, and `5.` is `Syntax`. It allocates where `try_from_utf8` does.
    pub fn try_from_str(alloc: Global, text: &str) -> Result<UnsignedDecimal, ParseError>
        ensures syntax { IsErrOf result ParseError.Syntax → IsNoText text.now }
        ensures limit { IsErrOf result ParseError.Limit → IsBeyond text.now }
        ensures memory { IsErrOf result ParseError.Memory → ReadsLong text.now }
        ensures value { IfOk result (λ v. Reads text.now v) }
    {
        UnsignedDecimal::try_from_utf8(alloc, text.as_bytes())
    }
}
