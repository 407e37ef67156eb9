//! A rounding whose turns are counted; the count takes no bytes.
ghost use Rattle.std.specs.Prelude.{◌≡◌, ◌<◌};

use fixed_decimal::{Decimal, RoundingIncrement, SignedRoundingMode, Turns, UnsignedRoundingMode};
use std::alloc::AllocError;
use std::marker::Brand;
use std::sync::ledger::{Blank, Ledger};

// Rounds, with the turns counted in the ledger of a blank.
fn round_in_ledger<L: Ledger>(
    number: &mut Decimal,
    position: i16,
    blank: Blank,
) -> Result<(), AllocError>
    requires name { blank.name ≡ L.name }
    requires parts { blank.parts ≡ L.parts }
    requires some { 0 < L.parts }
{
    let mut turns: Turns<L> = Turns::new(blank);
    let mode = SignedRoundingMode::Unsigned(UnsignedRoundingMode::Expand);
    number.round_counted(position, mode, RoundingIncrement::MultiplesOf25, &mut turns)
}

/// Rounds away from zero to a multiple of 25 at a position, by `round_counted`.
pub fn round(number: &mut Decimal, position: i16) -> Result<(), AllocError> {
    round_in_ledger::<Brand>(number, position, Blank::new(1))
}
