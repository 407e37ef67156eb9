//! Rounding the digits of a number: the two digits at the place, and what they become.

ghost use Rattle.std.specs.Prelude.{◌≡◌, ◌≢◌, ℕ, ◌+◌, ◌-◌, ◌*◌, ◌/◌, ◌%◌, ◌^◌, ◌<◌, ◌≤◌, length, slice_index, IfSome, IfNone, IfOk, OnErr, IsOk, IsTrue, cond, true, false, ◌⊎◌};
ghost use Rattle.std.specs.Bool.{MatchBool};
ghost use Rattle.std.specs.Int.Digits.{number_from_digits, AllBelowBase};
ghost use Rattle.fixed_decimal_digits.specs.DigitList.{count_of, IsTight, IsTrimmed};
ghost use Rattle.fixed_decimal_digits.specs.InlineDigits.{inline_digits};
ghost use Rattle.fixed_decimal_digits.specs.Rounding.{IsRounded, TakesOdd, increment_number};
ghost use Rattle.fixed_decimal_digits.specs.RoundingSteps.{IsAppended, takes_upper_of};

use crate::digits::Digits;
use crate::modes::{RoundingIncrement, UnsignedRoundingMode};
use crate::places::ONES;
use crate::rounding_digits::{add_one, drop_zeros};
use crate::rounding_place::round_at_place;
use crate::rounding_steps::{compare_below, compare_half, has_below, pair_at, takes_upper};
use crate::turns::Turns;
use std::alloc::AllocError;
use std::cmp::Ordering;
use std::sync::ledger::Ledger;

// The two digits at a place after a rounding there, 100 where they carry. None where the number is a multiple already.
fn rounded_pair(
    digits: &Digits,
    top: u32,
    place: u32,
    mode: UnsignedRoundingMode,
    increment: RoundingIncrement,
) -> Option<u8>
    requires trimmed { IsTrimmed digits.now.items top }
    requires place { place < 65536 }
    requires top { top < 65536 }
    ensures exact { IfNone result
        (IsRounded mode (increment_number increment * 10 ^ place) (count_of digits.now.items top)
        (count_of digits.now.items top)) }
    ensures value { IfSome result
        (λ v. IsRounded mode (increment_number increment * 10 ^ place) (count_of digits.now.items top)
        ((count_of digits.now.items top / 10 ^ place / 100 * 100 + v) * 10 ^ place)) }
    ensures hundred { IfSome result (λ v. v ≤ 100) }
    ensures deep { IfSome result (λ _. top < place + length digits.now.items + 1) }
    ensures deeper { IfSome result
        (λ _. increment ≢ RoundingIncrement.MultiplesOf25 → top < place + length digits.now.items) }
{
    let step = increment.step();
    let pair = pair_at(digits, top, place);
    let over = pair % step;
    let has_rest = has_below(digits, top, place);
    if is_exact(over, has_rest) {
        return None;
    }
    let half = compare_half(over, step, compare_below(digits, top, place), has_rest);
    let is_odd = pair / step % 2 == 1;
    Some(pair - over + step_up(mode, half, is_odd, step))
}

// Whether nothing is over a multiple, and no part below.
fn is_exact(over: u8, has_rest: bool) -> bool
    ensures { MatchBool result ((over ≡ 0) × (has_rest ≡ false)) ((0 < over) ⊎ (has_rest ≡ true)) }
{
    over == 0 && !has_rest
}

// The step where the upper of two multiples is taken, and else 0.
fn step_up(mode: UnsignedRoundingMode, half: Ordering, is_odd: bool, step: u8) -> u8
    ensures { result ≡ cond (takes_upper_of mode half is_odd) step 0 }
{
    if takes_upper(mode, half, is_odd) {
        step
    } else {
        0
    }
}

// Whether a pair after some digits begins with a zero that has no digit before it.
fn begins_with_zero(digits: &Digits, pair: u8) -> bool
    ensures none { IsTrue result → length digits.now.items ≡ 0 }
    ensures ten { IsTrue result → pair < 10 }
    ensures other { result ≡ false → length digits.now.items ≡ 0 → 10 ≤ pair }
{
    digits.is_empty() && pair < 10
}

// How many digits a pair adds after others: none where it is zero or carries.
fn digits_added(pair: u8) -> usize
    ensures most { result ≤ 2 }
    ensures first { 0 < pair → pair < 100 → 1 ≤ result }
    ensures both { 0 < pair % 10 → pair < 100 → 2 ≤ result }
    ensures two { 2 ≤ result → 0 < pair % 10 }
{
    if pair == 0 || pair >= 100 {
        return 0;
    }
    if pair % 10 == 0 { 1 } else { 2 }
}

// Adds two digits, of which not both are zero, and no zero before the first digit or after the last. It returns how
// many places of the two are left below the last digit.
fn push_pair(digits: &mut Digits, pair: u8) -> u32
    requires tens { AllBelowBase 10 digits.old.items }
    requires first { 0 < length digits.old.items → 0 < slice_index digits.old.items 0 }
    requires some { 0 < pair }
    requires hundred { pair < 100 }
    requires room { length digits.old.items + 1 ≤ digits.old.capacity }
    requires both_room { 0 < pair % 10 → length digits.old.items + 2 ≤ digits.old.capacity }
    ensures { IsAppended digits.old.items pair digits.new.items result }
{
    if begins_with_zero(digits, pair) {
        digits.push_reserved(pair);
        return 0;
    }
    digits.push_reserved(pair / 10);
    if pair % 10 == 0 {
        return 1;
    }
    digits.push_reserved(pair % 10);
    0
}

// Adds two digits, or one more than the digits before them where these are 100. It returns how many places are below
// the last digit that is kept.
#[tactic(auto, using(crate::proofs::AppendLemmas::zeros_appended, crate::proofs::AppendLemmas::one_appended))]
fn append_pair<L: Ledger>(digits: &mut Digits, pair: u8, turns: &mut Turns<L>) -> u32
    requires tens { AllBelowBase 10 digits.old.items }
    requires first { 0 < length digits.old.items → 0 < slice_index digits.old.items 0 }
    requires hundred { pair ≤ 100 }
    requires room { 0 < pair → pair < 100 → length digits.old.items + 1 ≤ digits.old.capacity }
    requires both_room { 0 < pair % 10 → pair < 100 → length digits.old.items + 2 ≤ digits.old.capacity }
    requires short { length digits.old.items ≤ 65536 }
    ensures tight { IsTight digits.new.items }
    ensures value { number_from_digits 10 digits.old.items * 100 + pair
        ≡ number_from_digits 10 digits.new.items * 10 ^ result }
    ensures length { length digits.new.items + result ≤ length digits.old.items + 3 }
    ensures turns { turns.new ≤ turns.old + length digits.old.items }
{
    let places = digits.len() as u32 + 2;
    if pair == 0 {
        drop_zeros(digits, turns);
        return places - digits.len() as u32;
    }
    if pair < 100 {
        return push_pair(digits, pair);
    }
    if add_one(digits, turns) {
        places + 1 - digits.len() as u32
    } else {
        places - digits.len() as u32
    }
}

// Rounds the digits of a number at a place by the two digits there.
fn round_by_pair<L: Ledger>(
    digits: &mut Digits,
    top: u32,
    place: u32,
    mode: UnsignedRoundingMode,
    increment: RoundingIncrement,
    turns: &mut Turns<L>,
) -> Result<u32, AllocError>
    requires trimmed { IsTrimmed digits.old.items top }
    requires place { place < 65536 }
    requires top { top < 65536 }
    ensures trimmed { IfOk result (λ t. IsTrimmed digits.new.items t) }
    ensures value { IfOk result
        (λ t. IsRounded mode (increment_number increment * 10 ^ place) (count_of digits.old.items top)
        (count_of digits.new.items t)) }
    ensures same { OnErr result (digits.new ≡ digits.old) }
    ensures succeeds { increment ≢ RoundingIncrement.MultiplesOf25 → IsOk result }
    ensures room { OnErr result (place + inline_digits ≤ top) }
    ensures last { OnErr result (place + length digits.old.items ≡ top) }
    ensures odd { OnErr result
        (TakesOdd mode (increment_number increment * 10 ^ place) (count_of digits.old.items top)) }
    ensures turns { turns.new ≤ turns.old + length digits.old.items }
{
    let Some(pair) = rounded_pair(digits, top, place, mode, increment) else {
        return Ok(top);
    };
    let kept = (top as usize + 1).saturating_sub(place as usize + 2);
    digits.reserve((kept + digits_added(pair)).saturating_sub(digits.len()))?;
    digits.truncate(kept);
    let below = append_pair(digits, pair, turns);
    Ok(top_of(digits, place + below))
}

/// Rounds the digits of a number at a place: 9, 9 at 32768, rounded at 32768 by `Expand`, are 1, and the result is
/// 32770.
///
/// It returns the new place of the first digit, which may be past the last place. The condition is that the digits
/// neither begin with a zero nor end in one, which then holds of the new ones. It allocates only for a multiple that
/// ends in 25 or 75 and a last digit right above the place, the first at least sixteen above it. `AllocError`: out of
/// memory, only there; the digits are then as before.
pub fn round_digits<L: Ledger>(
    digits: &mut Digits,
    top: u32,
    place: u32,
    mode: UnsignedRoundingMode,
    increment: RoundingIncrement,
    turns: &mut Turns<L>,
) -> Result<u32, AllocError>
    requires trimmed { IsTrimmed digits.old.items top }
    requires place { place < 65536 }
    requires top { top < 65536 }
    ensures trimmed { IfOk result (λ t. IsTrimmed digits.new.items t) }
    ensures value { IfOk result
        (λ t. IsRounded mode (increment_number increment * 10 ^ place) (count_of digits.old.items top)
        (count_of digits.new.items t)) }
    ensures same { OnErr result (digits.new ≡ digits.old) }
    ensures succeeds { increment ≢ RoundingIncrement.MultiplesOf25 → IsOk result }
    ensures room { OnErr result (place + inline_digits ≤ top) }
    ensures last { OnErr result (place + length digits.old.items ≡ top) }
    ensures odd { OnErr result
        (TakesOdd mode (increment_number increment * 10 ^ place) (count_of digits.old.items top)) }
    ensures turns { turns.new ≤ turns.old + length digits.old.items }
{
    if increment == RoundingIncrement::MultiplesOf1 {
        return Ok(round_at_place(digits, top, place, mode, turns));
    }
    round_by_pair(digits, top, place, mode, increment, turns)
}

// The place of the first digit, where the last is at a place; that of the ones where there is no digit.
fn top_of(digits: &Digits, last: u32) -> u32
    requires last { last + length digits.now.items < 2 ^ 32 }
    ensures none { length digits.now.items ≡ 0 → result ≡ 32768 }
    ensures some { 0 < length digits.now.items → result + 1 ≡ last + length digits.now.items }
{
    if digits.is_empty() {
        ONES as u32
    } else {
        last + digits.len() as u32 - 1
    }
}
