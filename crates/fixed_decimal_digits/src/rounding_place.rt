//! Rounding the digits of a number to a multiple of what a place counts.

ghost use Rattle.std.specs.Prelude.{◌≡◌, ℕ, ◌+◌, ◌-◌, ◌*◌, ◌/◌, ◌%◌, ◌^◌, ◌<◌, ◌≤◌, cond, length, take};
ghost use Rattle.std.specs.Int.Digits.{number_from_digits};
ghost use Rattle.fixed_decimal_digits.specs.DigitList.{count_of, IsTrimmed};
ghost use Rattle.fixed_decimal_digits.specs.Rounding.{IsRounded};
ghost use Rattle.fixed_decimal_digits.specs.RoundingSteps.{Compares};

use crate::digits::Digits;
use crate::modes::UnsignedRoundingMode;
use crate::places::ONES;
use crate::rounding_digits::{count_before_nines, count_before_zeros};
use crate::rounding_steps::{digit_at_place, takes_upper};
use crate::turns::Turns;
use std::cmp::Ordering;
use std::sync::ledger::Ledger;

// How the digits after the first `kept`, which reach down to a place, compare with half of what the place counts.
fn compare_after(digits: &Digits, top: u32, place: u32, kept: usize) -> Ordering
    requires trimmed { IsTrimmed digits.now.items top }
    requires place { place < 65536 }
    requires top { top < 65536 }
    requires kept { kept ≡ top + 1 - place }
    requires rest { kept < length digits.now.items }
    ensures { Compares result (2 * (count_of digits.now.items top % 10 ^ place)) (10 ^ place) }
{
    if place > top + 1 {
        return Ordering::Less;
    }
    let first = digits.get(kept);
    if first < 5 {
        return Ordering::Less;
    }
    if first > 5 {
        return Ordering::Greater;
    }
    if kept + 1 < digits.len() {
        return Ordering::Greater;
    }
    Ordering::Equal
}

// Whether the digit at a place is odd, where that decides.
fn is_odd_tie(digits: &Digits, top: u32, place: u32, half: Ordering) -> bool
    requires trimmed { IsTrimmed digits.now.items top }
    ensures { half ≡ Ordering.Equal → count_of digits.now.items top / 10 ^ place % 2 ≡ cond result 1 0 }
{
    half == Ordering::Equal && digit_at_place(digits, top, place) % 2 == 1
}

// Whether the upper of the two multiples is taken, where the first `kept` digits reach down to the place.
fn takes_next(
    digits: &Digits,
    top: u32,
    place: u32,
    kept: usize,
    mode: UnsignedRoundingMode,
) -> bool
    requires trimmed { IsTrimmed digits.now.items top }
    requires place { place < 65536 }
    requires top { top < 65536 }
    requires kept { kept ≡ top + 1 - place }
    requires rest { kept < length digits.now.items }
    ensures { IsRounded mode (10 ^ place) (count_of digits.now.items top)
        ((count_of digits.now.items top / 10 ^ place + cond result 1 0) * 10 ^ place) }
{
    let half = compare_after(digits, top, place, kept);
    let is_odd = is_odd_tie(digits, top, place, half);
    takes_upper(mode, half, is_odd)
}

// Keeps the first `kept` digits, without the zeros that they end in. It returns the place of the first one.
fn round_down<L: Ledger>(
    digits: &mut Digits,
    top: u32,
    place: u32,
    kept: usize,
    turns: &mut Turns<L>,
) -> u32
    requires trimmed { IsTrimmed digits.old.items top }
    requires kept { kept ≡ top + 1 - place }
    requires rest { kept < length digits.old.items }
    ensures trimmed { IsTrimmed digits.new.items result }
    ensures value { count_of digits.new.items result ≡ number_from_digits 10 (take kept digits.old.items) * 10 ^ place }
    ensures turns { turns.new ≤ turns.old + length digits.old.items }
{
    if kept == 0 {
        digits.clear();
        return ONES as u32;
    }
    let count = count_before_zeros(digits, kept, turns);
    digits.truncate(count);
    top
}

// Keeps the first `kept` digits, and adds one at the last of them. It returns the place of the first one.
fn round_up<L: Ledger>(
    digits: &mut Digits,
    top: u32,
    place: u32,
    kept: usize,
    turns: &mut Turns<L>,
) -> u32
    requires trimmed { IsTrimmed digits.old.items top }
    requires place { place < 65536 }
    requires top { top < 65536 }
    requires kept { kept ≡ top + 1 - place }
    requires rest { kept < length digits.old.items }
    ensures trimmed { IsTrimmed digits.new.items result }
    ensures value { count_of digits.new.items result
        ≡ (number_from_digits 10 (take kept digits.old.items) + 1) * 10 ^ place }
    ensures turns { turns.new ≤ turns.old + length digits.old.items }
{
    let count = count_before_nines(digits, kept, turns);
    if count == 0 {
        digits.clear();
        digits.push_reserved(1);
        return place + kept as u32;
    }
    digits.raise(count, 1);
    top
}

// Rounds the digits of a number at a place to a multiple of what the place counts. It returns the new place of the
// first digit, which may be past the last place.
pub fn round_at_place<L: Ledger>(
    digits: &mut Digits,
    top: u32,
    place: u32,
    mode: UnsignedRoundingMode,
    turns: &mut Turns<L>,
) -> u32
    requires trimmed { IsTrimmed digits.old.items top }
    requires place { place < 65536 }
    requires top { top < 65536 }
    ensures trimmed { IsTrimmed digits.new.items result }
    ensures value { IsRounded mode (10 ^ place) (count_of digits.old.items top) (count_of digits.new.items result) }
    ensures turns { turns.new ≤ turns.old + length digits.old.items }
{
    let kept = (top as usize + 1).saturating_sub(place as usize);
    if kept >= digits.len() {
        return top;
    }
    if takes_next(digits, top, place, kept, mode) {
        round_up(digits, top, place, kept, turns)
    } else {
        round_down(digits, top, place, kept, turns)
    }
}
