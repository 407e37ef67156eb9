//! Roundings whose turns are counted. A count takes no bytes, so a row sees only the number.
ghost use Rattle.std.specs.Prelude.{◌≡◌, ◌+◌, ◌<◌, ◌≤◌};

use fixed_decimal::{
    Decimal, RoundingIncrement, SignedRoundingMode, Turns, UnsignedDecimal, UnsignedRoundingMode,
};
use rows::{Stop, number_of, put_last_written};
use std::alloc::{AllocError, Global};
use std::marker::Brand;
use std::sync::ledger::{Blank, Ledger};

// Rounds, with the turns counted in the ledger of a blank.
fn round_in_ledger<L: Ledger>(
    number: &mut Decimal,
    position: i16,
    mode: SignedRoundingMode,
    increment: RoundingIncrement,
    blank: Blank,
) -> Result<(), AllocError>
    requires name { blank.name ≡ L.name }
    requires parts { blank.parts ≡ L.parts }
    requires some { 0 < L.parts }
{
    let mut turns: Turns<L> = Turns::new(blank);
    number.round_counted(position, mode, increment, &mut turns)
}

/// Rounds the number by `round_counted`.
pub fn round(
    number: &mut Decimal,
    position: i16,
    mode: SignedRoundingMode,
    increment: RoundingIncrement,
) -> Result<(), AllocError> {
    round_in_ledger::<Brand>(number, position, mode, increment, Blank::new(1))
}

// Rounds the number of a byte up to tens: it has at most three digits, so this makes at most five turns.
fn round_byte<L: Ledger>(
    alloc: Global,
    byte: u8,
    turns: &mut Turns<L>,
) -> Result<UnsignedDecimal, AllocError>
    ensures { turns.new ≤ turns.old + 5 }
{
    let mut number = UnsignedDecimal::from_u8(alloc, byte)?;
    let mode = UnsignedRoundingMode::Expand;
    match number.round_counted(1, mode, RoundingIncrement::MultiplesOf1, turns) {
        Ok(()) => Ok(number),
        Err(refused) => {
            drop(number);
            Err(refused)
        }
    }
}

// The number of a byte rounded so, with the turns counted in the ledger of a blank.
fn counted_byte<L: Ledger>(
    alloc: Global,
    byte: u8,
    blank: Blank,
) -> Result<UnsignedDecimal, AllocError>
    requires name { blank.name ≡ L.name }
    requires parts { blank.parts ≡ L.parts }
    requires some { 0 < L.parts }
{
    let mut turns: Turns<L> = Turns::new(blank);
    round_byte(alloc, byte, &mut turns)
}

/// The answer of a row that names a byte: its number rounded up to tens by `round_counted`.
pub fn byte_answer(alloc: Global, fields: &[&str], out: &mut String) -> Result<(), Stop> {
    let Some(byte) = fields.first() else {
        return Err(Stop::Unknown);
    };
    let byte = number_of(byte)?;
    let number = counted_byte::<Brand>(alloc, byte, Blank::new(1))?;
    put_last_written(out, number)
}
