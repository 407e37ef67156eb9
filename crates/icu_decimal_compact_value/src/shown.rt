//! The value that compact text shows for a number.

ghost use Rattle.std.specs.Prelude.{◌≡◌, ◌+◌, ◌-◌, ◌<◌, ◌≤◌, ◌↔◌, false, true, min, length, IfOk, IfSome, IfNone, OnErr, IsTrue};
ghost use Rattle.fixed_decimal.specs.Number.{digit};
ghost use Rattle.fixed_decimal.specs.Range.{IsLong, Rounds};
ghost use Rattle.fixed_decimal.specs.Shifts.{fall, rise};
ghost use Rattle.icu_decimal_compact_value.specs.Choice.{CanShow, entry_at, entry_of, is_carried_to, next_at};
ghost use Rattle.icu_decimal_compact_value.specs.ShownValue.{magnitude};
ghost use Rattle.icu_decimal_compact_value.specs.Significand.{Shows};
ghost use Rattle.icu_decimal_compact_value.specs.Steps.{IsDivided, IsNines, IsRoundedTo, StaysNear};

use crate::entry::CompactEntry;
use crate::places::{ONES, magnitude_of, magnitude_place};
use crate::table::{entry_index, exponent_at, next_index};
use fixed_decimal::{RoundingIncrement, UnsignedDecimal, UnsignedRoundingMode};
use std::alloc::AllocError;
use std::marker::Model;

/// What a number is shown as: 1.6 and the exponent 3 under the first entry, of 1650.
///
/// `significand` is the number before the patterns, `exponent` the power of ten that these stand for (0 with no entry),
/// `entry` the index of the entry whose patterns are taken.
#[derive(Debug, Drop)]
pub struct Shown {
    /// The number in the pattern: 1.6 of 1650 under `K`.
    pub significand: UnsignedDecimal,
    /// The power of ten that the pattern stands for: 3 of 1650 under `K`.
    pub exponent: u8,
    /// The index of the entry, as `Some(0)` of 1650 under `K`, or `None` where the number is shown without a pattern,
    /// as 843.
    pub entry: Option<usize>,
}

impl Model for Shown {
    ghost use Rattle.icu_decimal_compact_value.specs.Significand.{ShownNumber};

    ghost Value = { ShownNumber };

    ghost view = { λ a. record { significand = a.significand; exponent = a.exponent; entry = a.entry } };
}

/// Under which exponent and entry a number is shown: the exponent 3 and the first entry, of 1650 under `K`.
///
/// `exponent` is the power of ten that the patterns stand for (0 with no entry), `entry` the index of the entry whose
/// patterns are taken.
#[derive(Clone, Copy, Debug, PartialEq, Eq)]
pub struct ShownUnder {
    /// The power of ten that the pattern stands for: 3 of 1650 under `K`.
    pub exponent: u8,
    /// The index of the entry, as `Some(0)` of 1650 under `K`, or `None` where the number is shown without a pattern,
    /// as 843.
    pub entry: Option<usize>,
}

// The place at which a number is rounded: that of the exponent, or one below the first digit.
fn rounding_place(place: u16, exponent: u8) -> u16
    ensures { result ≡ min (32768 + exponent) (place - 1) }
{
    (ONES + exponent as u16).min(place.saturating_sub(1))
}

// Rounds a number at a place, half to even.
fn round_at(number: &mut UnsignedDecimal, place: u16)
    ensures { Rounds UnsignedRoundingMode.HalfEven RoundingIncrement.MultiplesOf1 place number.old number.new }
{
    number.round(magnitude_of(place));
}

// The digit of a number at a place.
fn digit_of(number: &UnsignedDecimal, place: u16) -> u8
    ensures { result ≡ digit number.now.count place }
{
    number.digit_at(magnitude_of(place))
}

// Whether the digits from a place up to the highest are all 9, and the one below is at least 5.
fn are_nines(number: &UnsignedDecimal, from: u16) -> bool
    requires { 0 < from }
    ensures { IsTrue result ↔ IsNines from 65535 number.now.count }
{
    if digit_of(number, from - 1) < 5 {
        return false;
    }
    for place in from as u32..65536 {
        if digit_of(number, place as u16) != 9 {
            return false;
        }
    }
    true
}

/// Whether what a number is shown as is a decimal: false of 32,768 nines under an entry of the exponent 6, as they are
/// rounded to 10^32768.
///
/// It is true exactly where the number rounded to its unit stays below 10^32768. It does not allocate.
pub fn can_show(number: &UnsignedDecimal, entries: &[CompactEntry]) -> bool
    ensures { IsTrue result ↔ CanShow entries.now number.now.count }
{
    let place = magnitude_place(number);
    if place < u16::MAX {
        return true;
    }
    let exponent = exponent_at(entries, entry_index(entries, place as u32));
    !are_nines(number, rounding_place(place, exponent))
}

// The shift that divides by ten to an exponent.
fn division_by(exponent: u8) -> i16
    ensures fall { fall result ≡ exponent }
    ensures rise { rise result ≡ 0 }
{
    -(exponent as i16)
}

// Rounds a number to its unit, where the place of its magnitude and the entry of that place are given.
fn round_to_unit(
    number: &mut UnsignedDecimal,
    entries: &[CompactEntry],
    place: u16,
    entry: Option<usize>,
)
    requires place { place ≡ magnitude 32768 number.old.count }
    requires entry { entry_of entries.now entry ≡ entry_at 32768 entries.now place }
    requires within { IfSome entry (λ i. i < length entries.now) }
    requires can { CanShow entries.now number.old.count }
    ensures { IsRoundedTo entries.now number.old number.new }
{
    let exponent = exponent_at(entries, entry);
    round_at(number, rounding_place(place, exponent));
}

// The index of the next entry, where a rounded number is shown as 1 under it.
fn carried_index(entries: &[CompactEntry], place: u16, rounded: &UnsignedDecimal) -> Option<usize>
    requires { StaysNear place rounded.now.count }
    ensures carried { IfSome result (λ i. is_carried_to 32768 entries.now place rounded.now.count ≡ true) }
    ensures entry { IfSome result (λ i. entry_of entries.now result ≡ next_at 32768 entries.now place) }
    ensures within { IfSome result (λ i. i < length entries.now) }
    ensures plain { IfNone result (is_carried_to 32768 entries.now place rounded.now.count ≡ false) }
{
    if magnitude_place(rounded) <= place {
        return None;
    }
    let Some(next) = next_index(entries, place) else {
        return None;
    };
    if ONES as u32 + entries[next].exponent as u32 == place as u32 + 1 {
        Some(next)
    } else {
        None
    }
}

/// Divides a number by ten to an exponent, and takes the zeros away that end its fraction: 1600 by 3 becomes 1.6.
///
/// The condition is that no place below the exponent is shown, counted from the lowest one up: 10^-32768 is not divided.
/// It does not allocate.
pub fn divide(rounded: &mut UnsignedDecimal, exponent: u8)
    requires { exponent ≤ rounded.old.low }
    ensures { IsDivided exponent rounded.old rounded.new }
{
    let _number = rounded.magnitude_range(); // for the proof
    rounded.multiply_pow10(division_by(exponent));
    rounded.trim_end();
}

/// Makes a number what it is shown as, and says under which exponent and entry: of 1650 under entries of the types 3
/// and 6 with the exponents 3 and 6 it makes 1.6, with the exponent 3 and the first entry; of 999500 it makes 1, with
/// the exponent 6 and the second entry; 843 stays, with no entry.
///
/// The number is rounded half to even, at the magnitude of the exponent where its first digit is above it, else to
/// two digits. Zeros that end the fraction go, and zeros before the number stay. The condition is `can_show`. It does
/// not allocate.
pub fn show_in_place(number: &mut UnsignedDecimal, entries: &[CompactEntry]) -> ShownUnder
    requires { CanShow entries.now number.old.count }
    ensures { Shows entries.now number.old
        (record { significand = number.new; exponent = result.exponent; entry = result.entry }) }
{
    let place = magnitude_place(number);
    let entry = entry_index(entries, place as u32);
    round_to_unit(number, entries, place, entry);
    match carried_index(entries, place, number) {
        Some(next) => {
            let exponent = entries[next].exponent;
            divide(number, exponent);
            number.trim_start();
            ShownUnder {
                exponent,
                entry: Some(next),
            }
        }
        None => {
            let exponent = exponent_at(entries, entry);
            divide(number, exponent);
            ShownUnder { exponent, entry }
        }
    }
}

/// What a number is shown as under the entries of a table: what `show_in_place` makes of it, in a value of its own.
///
/// Of 1650 it is 1.6, the exponent 3 and the first entry, under entries of the types 3 and 6 with the exponents 3 and
/// 6. The condition is `can_show`. It allocates where the number has more than sixteen digits, from the first to the
/// last one that is not zero. `AllocError`: out of memory, only there.
pub fn show(number: &UnsignedDecimal, entries: &[CompactEntry]) -> Result<Shown, AllocError>
    requires { CanShow entries.now number.now.count }
    ensures value { IfOk result (Shows entries.now number.now) }
    ensures room { OnErr result (IsLong number.now.count) }
{
    let mut significand = number.try_clone()?;
    let under = show_in_place(&mut significand, entries);
    Ok(Shown {
        significand,
        exponent: under.exponent,
        entry: under.entry,
    })
}
