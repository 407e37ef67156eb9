//! Digits cut away from the front.

ghost use Rattle.std.specs.Prelude.{◌≡◌, ◌+◌, ◌%◌, ◌^◌, ◌<◌, ◌≤◌, length, slice_index, drop};
ghost use Rattle.std.specs.Int.Digits.{number_from_digits};
ghost use Rattle.fixed_decimal_digits.specs.DigitList.{count_of, IsTrimmed};

use crate::digits::Digits;
use crate::places::ONES;

// The index of the first digit from an index on that is not zero, or of the last one.
#[tactic(auto, using(crate::proofs::CutLemmas::zero_skipped))]
fn first_other(digits: &Digits, from: usize) -> usize
    requires { from < length digits.now.items }
    ensures from { from ≤ result }
    ensures within { result < length digits.now.items }
    ensures found { result + 1 < length digits.now.items → 0 < slice_index digits.now.items result }
    ensures value { number_from_digits 10 (drop from digits.now.items)
        ≡ number_from_digits 10 (drop result digits.now.items) }
{
    let last = digits.len() - 1;
    let mut index = from;
    while index < last {
        if digits.get(index) != 0 {
            return index;
        }
        index += 1;
    }
    index
}

/// Cuts away the digits from a place up: of 1, 2, 0, 4 at 32771, cut at 32770, 4 is left, and the result is 32768.
///
/// It returns the new place of the first digit. The condition is that the digits neither begin with a zero nor end in
/// one, which then holds of those that are left. It does not allocate.
#[tactic(auto, using(crate::proofs::CutLemmas::cut_none, crate::proofs::CutLemmas::cut_all, crate::proofs::CutLemmas::cut_made))]
pub fn cut_above(digits: &mut Digits, top: u16, place: u16) -> u16
    requires { IsTrimmed digits.old.items top }
    ensures trimmed { IsTrimmed digits.new.items result }
    ensures value { count_of digits.new.items result ≡ count_of digits.old.items top % 10 ^ place }
    ensures end { 0 < length digits.new.items → result + length digits.old.items ≡ top + length digits.new.items }
    ensures below { 0 < length digits.new.items → result < place }
{
    if place > top {
        return top;
    }
    let front = (top - place) as usize + 1;
    if front >= digits.len() {
        digits.clear();
        return ONES;
    }
    let start = first_other(digits, front);
    digits.drop_front(start);
    top - start as u16
}
