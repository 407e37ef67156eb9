//! Changes of decimals that ask for no memory: shifts, trims, pads, cuts and roundings.

use crate::case::Case;
use crate::change::{ROOM, Receiver};
use fixed_decimal::{RoundingIncrement, UnsignedDecimal, UnsignedRoundingMode};
use rows::{Stop, number_of};

/// The answer of such a call: the number after it.
pub fn answer(case: Case<'_>, out: &mut String) -> Result<(), Stop> {
    out.reserve(ROOM)?;
    let position = number_of::<i16>(case.argument)?;
    let mut number = <UnsignedDecimal as Receiver>::read(*out.allocator(), case.receiver)?;
    case.begin();
    let changed = change(&mut number, case.call, position);
    let shown = number.show(out);
    changed?;
    shown
}

// Makes the call; a position is passed where it takes one.
fn change(number: &mut UnsignedDecimal, call: &str, position: i16) -> Result<(), Stop> {
    match call {
        "UnsignedDecimal::multiply_pow10" => number.multiply_pow10(position),
        "UnsignedDecimal::trim_start" => number.trim_start(),
        "UnsignedDecimal::trim_end" => number.trim_end(),
        "UnsignedDecimal::trim_end_if_integer" => number.trim_end_if_integer(),
        "UnsignedDecimal::pad_start" => number.pad_start(position),
        "UnsignedDecimal::pad_end" => number.pad_end(position),
        "UnsignedDecimal::set_max_position" => number.set_max_position(position),
        "UnsignedDecimal::expand" => number.expand(position),
        "UnsignedDecimal::expand to 5" => return expand_to_5(number, position),
        _ => return Err(Stop::Unknown),
    }
    Ok(())
}

// Rounds away from zero to a multiple of 5.
fn expand_to_5(number: &mut UnsignedDecimal, position: i16) -> Result<(), Stop> {
    let mode = UnsignedRoundingMode::Expand;
    number.round_with_mode_and_increment(position, mode, RoundingIncrement::MultiplesOf5)?;
    Ok(())
}
