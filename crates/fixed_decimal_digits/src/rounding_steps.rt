//! What a rounding looks at: digits by place, the part below a place, and the choice between two multiples, at a tie too.

ghost use Rattle.std.specs.Prelude.{◌≡◌, ℕ, ◌+◌, ◌-◌, ◌*◌, ◌/◌, ◌%◌, ◌^◌, ◌<◌, ◌≤◌, ◌↔◌, length, IsTrue, slice_index};
ghost use Rattle.std.specs.Int.Digits.{number_from_digits, AllBelowBase};
ghost use Rattle.fixed_decimal_digits.specs.CountDigits.{digit};
ghost use Rattle.fixed_decimal_digits.specs.DigitList.{count_of, IsTrimmed};
ghost use Rattle.fixed_decimal_digits.specs.RoundingSteps.{Compares, takes_upper_of};

use crate::digits::Digits;
use crate::modes::UnsignedRoundingMode;
use std::cmp::Ordering;

/// The digit at a place, where the first is at `top`: 2 at 32768 of 1, 2 at 32769, and 0 where there is none. It does
/// not allocate.
#[tactic(auto, using(crate::proofs::CountLemmas::digit_over, crate::proofs::CountLemmas::digit_inside, crate::proofs::CountLemmas::digit_beyond))]
pub fn digit_at_place(digits: &Digits, top: u32, place: u32) -> u8
    requires tens { AllBelowBase 10 digits.now.items }
    requires room { length digits.now.items ≤ top + 1 }
    ensures value { result ≡ digit (count_of digits.now.items top) place }
    ensures ten { result < 10 }
{
    if place > top {
        return 0;
    }
    let index = (top - place) as usize;
    if index < digits.len() {
        digits.get(index)
    } else {
        0
    }
}

// The number that the digits at a place and the next above it spell.
#[tactic(auto, using(crate::proofs::RoundingStepLemmas::pair_of))]
pub fn pair_at(digits: &Digits, top: u32, place: u32) -> u8
    requires tens { AllBelowBase 10 digits.now.items }
    requires room { length digits.now.items ≤ top + 1 }
    requires place { place < 65536 }
    ensures value { result ≡ count_of digits.now.items top / 10 ^ place % 100 }
    ensures hundred { result < 100 }
{
    digit_at_place(digits, top, place + 1) * 10 + digit_at_place(digits, top, place)
}

// Whether a digit other than 0 is below a place.
#[tactic(auto, using(crate::proofs::RoundingStepLemmas::below_some, crate::proofs::RoundingStepLemmas::below_none, crate::proofs::RoundingStepLemmas::below_zero))]
pub fn has_below(digits: &Digits, top: u32, place: u32) -> bool
    requires trimmed { IsTrimmed digits.now.items top }
    requires place { place ≤ 65536 }
    requires top { top < 65536 }
    ensures { IsTrue result ↔ (0 < count_of digits.now.items top % 10 ^ place) }
{
    !digits.is_empty() && top + 1 < place + digits.len() as u32
}

// How the part below a place compares with half of what the place counts.
#[tactic(auto, using(crate::proofs::RoundingStepLemmas::below_less, crate::proofs::RoundingStepLemmas::below_greater, crate::proofs::RoundingStepLemmas::below_middle))]
pub fn compare_below(digits: &Digits, top: u32, place: u32) -> Ordering
    requires trimmed { IsTrimmed digits.now.items top }
    requires place { place ≤ 65536 }
    requires top { top < 65536 }
    ensures { Compares result (2 * (count_of digits.now.items top % 10 ^ place)) (10 ^ place) }
{
    if place == 0 {
        return Ordering::Less;
    }
    let first = digit_at_place(digits, top, place - 1);
    if first < 5 {
        return Ordering::Less;
    }
    if first > 5 {
        return Ordering::Greater;
    }
    if has_below(digits, top, place - 1) {
        return Ordering::Greater;
    }
    Ordering::Equal
}

// How twice a rest, `over` counts over a multiple and a part below, compares with the step.
pub fn compare_half(over: u8, step: u8, below: Ordering, has_rest: bool) -> Ordering
    requires over { over < step }
    requires step { step < 100 }
    ensures { (part unit : ℕ) → part < unit → Compares below (2 * part) unit → (IsTrue has_rest ↔ (0 < part))
        → Compares result (2 * (over * unit + part)) (step * unit) }
{
    let twice = 2 * over;
    if twice + 1 == step {
        return below;
    }
    if twice < step {
        return Ordering::Less;
    }
    if twice > step {
        return Ordering::Greater;
    }
    if has_rest {
        return Ordering::Greater;
    }
    Ordering::Equal
}

// Whether the upper of two multiples is taken.
pub fn takes_upper(mode: UnsignedRoundingMode, half: Ordering, is_odd: bool) -> bool
    ensures { result ≡ takes_upper_of mode half is_odd }
{
    match mode {
        UnsignedRoundingMode::Expand => true,
        UnsignedRoundingMode::Trunc => false,
        UnsignedRoundingMode::HalfExpand => half != Ordering::Less,
        UnsignedRoundingMode::HalfTrunc => half == Ordering::Greater,
        UnsignedRoundingMode::HalfEven => {
            half == Ordering::Greater || (half == Ordering::Equal && is_odd)
        }
    }
}
