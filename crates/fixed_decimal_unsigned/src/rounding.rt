//! Rounding to a multiple of an increment at a position, its turns counted.

ghost use Rattle.std.specs.Prelude.{◌≡◌, ◌≢◌, ℕ, ◌+◌, ◌*◌, ◌^◌, ◌<◌, ◌≤◌, OnOk, OnErr, IsOk};
ghost use Rattle.fixed_decimal_unsigned.specs.Number.{place};
ghost use Rattle.fixed_decimal_unsigned.specs.DigitCount.{HoldsDigits};
ghost use Rattle.fixed_decimal_unsigned.specs.Range.{Rounds};
ghost use Rattle.fixed_decimal_unsigned.specs.RoundingMemory.{MayGrow};
ghost use Rattle.fixed_decimal_digits.specs.Rounding.{IsLimited};
ghost use Rattle.fixed_decimal_digits.specs.DigitList.{IsTrimmed, count_of};

use crate::places::place_of;
use crate::unsigned_decimal::UnsignedDecimal;
use fixed_decimal_digits::{
    Digits, ONES, RoundingIncrement, Turns, UnsignedRoundingMode, round_digits,
};
use std::alloc::AllocError;
use std::sync::ledger::Ledger;

impl UnsignedDecimal {
    /// Rounds to a multiple of the increment at a position, and counts the turns of the loops over digits.
    ///
    /// It returns and does what `round_with_mode_and_increment` does, in at most two more turns than the number has
    /// digits, from the first to the last one that is not zero: `99.999` at 4 by `Expand` is `10000`, in at most seven
    /// turns. It allocates where `round_with_mode_and_increment` does. `AllocError`: out of memory, only there.
    pub fn round_counted<L: Ledger>(
        &mut self,
        position: i16,
        mode: UnsignedRoundingMode,
        increment: RoundingIncrement,
        turns: &mut Turns<L>,
    ) -> Result<(), AllocError>
        ensures succeeds { increment ≢ RoundingIncrement.MultiplesOf25 → IsOk result }
        ensures room { OnErr result (MayGrow mode increment (place position) self.old.count) }
        ensures value { OnOk result (Rounds mode increment (place position) self.old self.new) }
        ensures same { OnErr result (self.new ≡ self.old) }
        ensures turns { (low digits : ℕ) → HoldsDigits self.old.count low digits → turns.new ≤ turns.old + digits + 2 }
    {
        let place = place_of(position);
        let top = round_digits(
            &mut self.digits,
            self.top as u32,
            place as u32,
            mode,
            increment,
            turns,
        )?;
        self.top = within_limit(&mut self.digits, top);
        self.low = place.min(ONES);
        self.high = self.high.max(place.saturating_sub(1)).max(self.top);
        Ok(())
    }
}

// The place of the first digit; no digits are left where it is past the last place.
#[tactic(auto, using(crate::proofs::RangeLemmas::limited_same, crate::proofs::RangeLemmas::limited_zero))]
fn within_limit(digits: &mut Digits, top: u32) -> u16
    requires { IsTrimmed digits.old.items top }
    ensures trimmed { IsTrimmed digits.new.items result }
    ensures value { IsLimited (count_of digits.old.items top) (count_of digits.new.items result) }
{
    if top > u16::MAX as u32 {
        digits.clear();
        return ONES;
    }
    top as u16
}
