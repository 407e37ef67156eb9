//! Calls that change an unsigned number, and calls that tell of it.

use crate::number::{ends, told};
use crate::rounding::Rounding;
use crate::step::Step;
use fixed_decimal::{ShownDigits, UnsignedDecimal};
use rows::{Stop, number_of, put, put_text};

// Makes a call that is passed nothing; false where the name is of none.
fn trim(number: &mut UnsignedDecimal, name: &str) -> bool {
    match name {
        "trim_start" => number.trim_start(),
        "trim_end" => number.trim_end(),
        "trim_end_if_integer" => number.trim_end_if_integer(),
        _ => return false,
    }
    true
}

// Shifts, pads or cuts; false where the name is of none of these.
fn reach(number: &mut UnsignedDecimal, name: &str, position: i16) -> bool {
    match name {
        "multiply_pow10" => number.multiply_pow10(position),
        "pad_start" => number.pad_start(position),
        "pad_end" => number.pad_end(position),
        "set_max_position" => number.set_max_position(position),
        _ => return false,
    }
    true
}

/// Trims, shifts, pads or cuts the number; false where the call is none of these.
pub fn adjust(number: &mut UnsignedDecimal, step: Step<'_>) -> bool {
    if step.passed.is_empty() {
        return trim(number, step.name);
    }
    match number_of::<i16>(step.passed) {
        Ok(position) => reach(number, step.name, position),
        Err(_) => false,
    }
}

/// Rounds by a call that is passed only a position; false where it is not one.
pub fn round_plain(number: &mut UnsignedDecimal, step: Step<'_>) -> bool {
    let Ok(position) = number_of::<i16>(step.passed) else {
        return false;
    };
    match step.name {
        "round" => number.round(position),
        "expand" => number.expand(position),
        "trunc" => number.trunc(position),
        _ => return false,
    }
    true
}

/// Rounds by a call that is passed a mode too, and an increment if it is not `round_with_mode`.
pub fn round_by(number: &mut UnsignedDecimal, step: Step<'_>) -> Result<(), Stop> {
    let it = Rounding::of(step.passed)?;
    let mode = it.unsigned_mode()?;
    if step.name == "round_with_mode" {
        number.round_with_mode(it.position, mode);
    } else {
        number.round_with_mode_and_increment(it.position, mode, it.increment)?;
    }
    Ok(())
}

// Writes a digit of a list.
fn put_digit(out: &mut String, digit: u8) -> Result<(), Stop> {
    put_text(out, " ")?;
    put(out, &digit)
}

// Writes how many digits there are, and each of them, taken one by one.
fn put_singly(out: &mut String, digits: ShownDigits<'_>) -> Result<(), Stop> {
    put(out, &digits.len())?;
    put_text(out, ":")?;
    for digit in digits {
        put_digit(out, digit)?;
    }
    Ok(())
}

// Writes digits of a block.
fn put_block(out: &mut String, digits: &[u8]) -> Result<(), Stop> {
    for digit in digits {
        put_digit(out, *digit)?;
    }
    Ok(())
}

// Writes the same list, of digits that are taken a block at a time.
fn put_by_blocks(out: &mut String, mut digits: ShownDigits<'_>) -> Result<(), Stop> {
    put(out, &digits.len())?;
    put_text(out, ":")?;
    let mut block = [0; 16];
    while digits.len() > 0 {
        let count = digits.next_block(&mut block);
        put_block(out, &block[..count])?;
    }
    Ok(())
}

// Writes the list of digits, where those taken one by one are those taken a block at a time; false where they are not.
fn put_listed(
    out: &mut String,
    single: ShownDigits<'_>,
    blocks: ShownDigits<'_>,
) -> Result<bool, Stop> {
    let mut other = String::new(*out.allocator());
    let listed = put_by_blocks(&mut other, blocks);
    let single = put_singly(out, single);
    let is_same = out.as_str() == other.as_str();
    drop(other);
    listed?;
    single?;
    Ok(is_same)
}

/// Writes what a call tells of the number; false where it tells nothing.
pub fn tell(number: &UnsignedDecimal, step: Step<'_>, out: &mut String) -> Result<bool, Stop> {
    match step.name {
        "nonzero_magnitude_start" => told(out, &number.nonzero_magnitude_start()),
        "nonzero_magnitude_end" => told(out, &number.nonzero_magnitude_end()),
        "is_zero" => told(out, &number.is_zero()),
        "digit_at" => told(out, &number.digit_at(number_of(step.passed)?)),
        "whole_digits" => put_listed(out, number.whole_digits(), number.whole_digits()),
        "fraction_digits" => put_listed(out, number.fraction_digits(), number.fraction_digits()),
        "magnitude_range" => {
            let range = number.magnitude_range();
            ends(out, range.start(), range.end())
        }
        _ => Ok(false),
    }
}
