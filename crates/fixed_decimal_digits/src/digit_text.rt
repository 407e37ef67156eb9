//! The digits of a text.

ghost use Rattle.std.specs.Prelude.{◌≡◌, ◌+◌, ◌%◌, ◌^◌, ◌<◌, ◌≤◌, ◌++◌, length, map, OnOk, OnErr};
ghost use Rattle.std.specs.Char.{digit_value};
ghost use Rattle.fixed_decimal_digit_words.specs.DigitText.{AreDigits};

use crate::digits::{BLOCK, Digits};
use fixed_decimal_digit_words::digit_of;
use std::alloc::AllocError;

// Adds the digits of a text, at most a block, for which there is room, after an even count.
#[tactic(auto, using(crate::proofs::BlockLemmas::digits_ahead, crate::proofs::BlockLemmas::digits_past, crate::proofs::BlockLemmas::parts_pushed, crate::proofs::BlockLemmas::pushed_length))]
fn push_few(digits: &mut Digits, text: &[u8])
    requires text_digits { AreDigits text.now }
    requires few { length text.now ≤ 64 }
    requires room { length digits.old.items + length text.now ≤ digits.old.capacity }
    requires even { length digits.old.items % 2 ≡ 0 }
    ensures items { digits.new.items ≡ digits.old.items ++ map digit_value text.now }
    ensures capacity { digits.old.capacity ≤ digits.new.capacity }
{
    if text.len() % 2 == 0 {
        digits.push_block(text);
    } else if let Some((last, pairs)) = text.split_last() {
        digits.push_block(pairs);
        digits.push_reserved(digit_of(*last));
    }
}

// Adds the digits of a text, for which there is room, in blocks after an even count.
fn push_blocks(digits: &mut Digits, text: &[u8])
    requires text_digits { AreDigits text.now }
    requires room { length digits.old.items + length text.now ≤ digits.old.capacity }
    requires even { length digits.old.items % 2 ≡ 0 }
    ensures items { digits.new.items ≡ digits.old.items ++ map digit_value text.now }
    ensures capacity { digits.old.capacity ≤ digits.new.capacity }
{
    let mut rest = text;
    while rest.len() > BLOCK {
        let (front, back) = rest.split_at(BLOCK);
        digits.push_block(front);
        rest = back;
    }
    push_few(digits, rest);
}

// Adds the digits of a text, for which there is room, after those that are there.
#[tactic(auto, using(fixed_decimal_digit_words::proofs::DigitTextLemmas::digits_after, crate::proofs::BlockLemmas::first_left))]
fn push_text(digits: &mut Digits, text: &[u8])
    requires text_digits { AreDigits text.now }
    requires room { length digits.old.items + length text.now ≤ digits.old.capacity }
    ensures items { digits.new.items ≡ digits.old.items ++ map digit_value text.now }
    ensures capacity { digits.old.capacity ≤ digits.new.capacity }
{
    if digits.len() % 2 == 0 {
        push_blocks(digits, text);
    } else if let Some((first, rest)) = text.split_first() {
        digits.push_reserved(digit_of(*first));
        push_blocks(digits, rest);
    }
}

/// Replaces the digits by those of two texts, one after the other: 9, 0, 5 of `90` and `5`.
///
/// The condition is that each byte is a digit. The call reuses the memory of the digits, and allocates where that has
/// no room for these. `AllocError`: out of memory, only there; the digits are then as before.
pub fn assign_texts(digits: &mut Digits, whole: &[u8], rest: &[u8]) -> Result<(), AllocError>
    requires whole_digits { AreDigits whole.now }
    requires rest_digits { AreDigits rest.now }
    requires count { length whole.now + length rest.now < 2 ^ 64 }
    ensures items { OnOk result (digits.new.items ≡ map digit_value (whole.now ++ rest.now)) }
    ensures err { OnErr result (digits.new ≡ digits.old) }
    ensures room { OnErr result (digits.old.capacity < length whole.now + length rest.now) }
{
    digits.make_room(whole.len() + rest.len())?;
    digits.clear();
    push_text(digits, whole);
    push_text(digits, rest);
    Ok(())
}
