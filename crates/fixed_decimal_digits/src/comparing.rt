//! Equality of counts.

ghost use Rattle.std.specs.Prelude.{◌≡◌};
ghost use Rattle.std.specs.Bool.{Decides};
ghost use Rattle.fixed_decimal_digits.specs.DigitList.{count_of, IsTrimmed};

use crate::digits::Digits;

/// Whether digits whose first is at a place spell the count that others spell: true of 1, 2 at 32769 and 1, 2 at 32769,
/// and false of 1, 2 and of 1 there.
///
/// The condition is that neither begins with a zero or ends in one. It does not allocate.
#[tactic(auto, using(crate::proofs::SameCountLemmas::tops_decide, crate::proofs::SameCountLemmas::digits_decide))]
pub fn is_same_count(digits: &Digits, top: u16, other: &Digits, other_top: u16) -> bool
    requires kept { IsTrimmed digits.now.items top }
    requires other { IsTrimmed other.now.items other_top }
    ensures { Decides result (count_of digits.now.items top ≡ count_of other.now.items other_top) }
{
    if top != other_top {
        return false;
    }
    digits.is_same(other)
}
