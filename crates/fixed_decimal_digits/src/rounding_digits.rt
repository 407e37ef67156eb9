//! The loops over digits that a rounding makes, each turn counted.

ghost use Rattle.std.specs.Prelude.{◌≡◌, ℕ, ◌+◌, ◌-◌, ◌*◌, ◌/◌, ◌%◌, ◌^◌, ◌<◌, ◌≤◌, cond, length, slice_index, take};
ghost use Rattle.std.specs.Int.Digits.{number_from_digits, AllBelowBase};
ghost use Rattle.fixed_decimal_digits.specs.DigitList.{IsTight};

use crate::digits::Digits;
use crate::turns::Turns;
use std::sync::ledger::Ledger;

// How many of the first `from` digits come before the zeros that these end in.
#[tactic(auto, using(crate::proofs::LoopLemmas::zeros_more, crate::proofs::LoopLemmas::front_last))]
pub fn count_before_zeros<L: Ledger>(digits: &Digits, from: usize, turns: &mut Turns<L>) -> usize
    requires tens { AllBelowBase 10 digits.now.items }
    requires first { 0 < length digits.now.items → 0 < slice_index digits.now.items 0 }
    requires from { from ≤ length digits.now.items }
    ensures within { result ≤ from }
    ensures some { 0 < from → 0 < result }
    ensures last { 0 < result → 0 < number_from_digits 10 (take result digits.now.items) % 10 }
    ensures value { number_from_digits 10 (take from digits.now.items)
        ≡ number_from_digits 10 (take result digits.now.items) * 10 ^ (from - result) }
    ensures turns { turns.new + result ≡ turns.old + from }
{
    let mut count = from;
    while count > 0 && digits.get(count - 1) == 0 {
        turns.turn();
        count -= 1;
    }
    count
}

// Removes the zeros that the digits end in.
#[tactic(auto, using(fixed_decimal_digit_words::proofs::DigitsLemmas::number_all, fixed_decimal_digit_words::proofs::DigitsLemmas::below_take))]
pub fn drop_zeros<L: Ledger>(digits: &mut Digits, turns: &mut Turns<L>)
    requires tens { AllBelowBase 10 digits.old.items }
    requires first { 0 < length digits.old.items → 0 < slice_index digits.old.items 0 }
    ensures tight { IsTight digits.new.items }
    ensures value { number_from_digits 10 digits.old.items
        ≡ number_from_digits 10 digits.new.items * 10 ^ (length digits.old.items - length digits.new.items) }
    ensures length { length digits.new.items ≤ length digits.old.items }
    ensures some { 0 < length digits.old.items → 0 < length digits.new.items }
    ensures capacity { digits.new.capacity ≡ digits.old.capacity }
    ensures turns { turns.new ≡ turns.old + (length digits.old.items - length digits.new.items) }
{
    let count = count_before_zeros(digits, digits.len(), turns);
    digits.truncate(count);
}

// How many of the first `from` digits come before the pairs of nines that these end in. A turn that takes two digits
// counts as two.
#[tactic(auto, using(crate::proofs::LoopLemmas::nines_two))]
fn count_before_nine_pairs<L: Ledger>(digits: &Digits, from: usize, turns: &mut Turns<L>) -> usize
    requires from { from ≤ length digits.now.items }
    ensures within { result ≤ from }
    ensures value { number_from_digits 10 (take from digits.now.items) + 1
        ≡ (number_from_digits 10 (take result digits.now.items) + 1) * 10 ^ (from - result) }
    ensures turns { turns.new + result ≡ turns.old + from }
{
    let mut count = from;
    while count > 1 && digits.are_both(count - 2, 9) {
        turns.turn();
        turns.turn();
        count -= 2;
    }
    count
}

// How many of the first `from` digits come before the nines that these end in, two a turn.
#[tactic(auto, using(crate::proofs::LoopLemmas::nines_more))]
fn count_before_many_nines<L: Ledger>(digits: &Digits, from: usize, turns: &mut Turns<L>) -> usize
    requires from { from ≤ length digits.now.items }
    ensures within { result ≤ from }
    ensures value { number_from_digits 10 (take from digits.now.items) + 1
        ≡ (number_from_digits 10 (take result digits.now.items) + 1) * 10 ^ (from - result) }
    ensures last { 0 < result → ¬ (slice_index digits.now.items (result - 1) ≡ 9) }
    ensures turns { 0 < result → turns.new + result ≡ turns.old + from + 1 }
    ensures all { result ≡ 0 → turns.new ≡ turns.old + from }
{
    let mut count = count_before_nine_pairs(digits, from, turns);
    while count > 0 {
        turns.turn();
        if digits.get(count - 1) != 9 {
            return count;
        }
        count -= 1;
    }
    count
}

// How many of the first `from` digits come before the nines that these end in.
pub fn count_before_nines<L: Ledger>(digits: &Digits, from: usize, turns: &mut Turns<L>) -> usize
    requires from { from ≤ length digits.now.items }
    ensures within { result ≤ from }
    ensures value { number_from_digits 10 (take from digits.now.items) + 1
        ≡ (number_from_digits 10 (take result digits.now.items) + 1) * 10 ^ (from - result) }
    ensures last { 0 < result → ¬ (slice_index digits.now.items (result - 1) ≡ 9) }
    ensures turns { 0 < result → turns.new + result ≡ turns.old + from + 1 }
    ensures all { result ≡ 0 → turns.new ≡ turns.old + from }
{
    if from > 0 && digits.get(from - 1) != 9 {
        turns.turn();
        return from;
    }
    count_before_many_nines(digits, from, turns)
}

// Adds one at the last digit, and returns whether the number has a digit more before its first.
#[tactic(auto, using(fixed_decimal_digit_words::proofs::DigitsLemmas::number_all, crate::proofs::LoopLemmas::raised_value, crate::proofs::LoopLemmas::raised_last, crate::proofs::LoopLemmas::raised_below, crate::proofs::LoopLemmas::raised_first, crate::proofs::LoopLemmas::raised_length))]
pub fn add_one<L: Ledger>(digits: &mut Digits, turns: &mut Turns<L>) -> bool
    requires tens { AllBelowBase 10 digits.old.items }
    requires first { 0 < length digits.old.items → 0 < slice_index digits.old.items 0 }
    ensures tight { IsTight digits.new.items }
    ensures value { number_from_digits 10 digits.old.items + 1
        ≡ number_from_digits 10 digits.new.items * 10 ^
        (length digits.old.items + cond result 1 0 - length digits.new.items) }
    ensures length { length digits.new.items ≤ length digits.old.items + cond result 1 0 }
    ensures some { 0 < length digits.new.items }
    ensures turns { turns.new ≤ turns.old + length digits.old.items }
{
    let count = count_before_nines(digits, digits.len(), turns);
    if count == 0 {
        digits.clear();
        digits.push_reserved(1);
        return true;
    }
    digits.raise(count, 1);
    false
}
