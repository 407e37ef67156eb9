//! The digits of a whole number.

ghost use Rattle.std.specs.Prelude.{◌≡◌, ◌^◌, ◌<◌, ◌≤◌, [], length, slice_index, OnOk, OnErr};
ghost use Rattle.std.specs.Int.Digits.{number_from_digits, AllBelowBase};
ghost use Rattle.fixed_decimal_digits.specs.InlineDigits.{inline_digits};

use crate::digits::Digits;
use fixed_decimal_digit_words::{WORD_DIGITS, word_of_number};
use std::alloc::AllocError;

/// Ten to the power of the sixteen digits that a word has.
pub const WORD_LIMIT: u128 = 10_000_000_000_000_000;

// Puts the digits of a number, at most sixteen, into a list in place of those that are there.
#[tactic(auto, using(fixed_decimal_digit_words::proofs::CutWordLemmas::front_counted, crate::proofs::LongNumberLemmas::number_of_first, crate::proofs::LongNumberLemmas::none_of_zero))]
fn assign_number(digits: &mut Digits, number: u64)
    requires { number < 10 ^ 16 }
    ensures value { number_from_digits 10 digits.new.items ≡ number }
    ensures tens { AllBelowBase 10 digits.new.items }
    ensures none { number ≡ 0 → digits.new.items ≡ [] }
    ensures first { 0 < length digits.new.items → 0 < slice_index digits.new.items 0 }
{
    let word = word_of_number(number);
    let count = WORD_DIGITS - (word.leading_zeros() / 4) as usize;
    digits.assign_word(word, count);
}

/// Puts the digits of a number into an empty list: 9, 0, 5 of 905.
///
/// It allocates where there are more than sixteen. `AllocError`: out of memory, only there.
#[tactic(auto, using(crate::proofs::LongNumberLemmas::number_after, crate::proofs::LongNumberLemmas::tens_after, crate::proofs::LongNumberLemmas::first_after))]
pub fn push_number(digits: &mut Digits, number: u128) -> Result<(), AllocError>
    requires { digits.old.items ≡ [] }
    ensures value { OnOk result (number_from_digits 10 digits.new.items ≡ number) }
    ensures tens { OnOk result (AllBelowBase 10 digits.new.items) }
    ensures none { OnOk result (number ≡ 0 → digits.new.items ≡ []) }
    ensures first { OnOk result (0 < length digits.new.items → 0 < slice_index digits.new.items 0) }
    ensures room { OnErr result (10 ^ inline_digits ≤ number) }
{
    if number < WORD_LIMIT {
        assign_number(digits, number as u64);
        return Ok(());
    }
    push_number(digits, number / WORD_LIMIT)?;
    digits.reserve(WORD_DIGITS)?;
    let word = word_of_number((number % WORD_LIMIT) as u64);
    digits.push_sixteen(word);
    Ok(())
}
