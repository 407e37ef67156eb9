//! A guess at the number that digits of any table in a text are: nothing is claimed of it.

ghost use Rattle.std.specs.Prelude.{◌≡◌, true};
ghost use Rattle.icu_decimal_reading.specs.Readable.{all_differ};

use crate::digits::{count_in, digit_in};
use arrayvec::ArrayVec;
use fixed_decimal::Decimal;
use std::alloc::{AllocError, Global};

// How many digits and points are gathered without an allocation.
const FEW: usize = 32;

// How many digits a number has at most.
const MOST: usize = 65536;

// What stands for a character where a number is spelled: a digit, a point, or nothing.
//
// Most tables have their digits one after another, and most texts no other digit there.
fn spelling(table: &[char; 10], point: char, character: char) -> Option<u8>
    requires { all_differ table.now ≡ true }
{
    let distance = (character as u32).wrapping_sub(table[0] as u32);
    if distance < 10 {
        return Some(b'0' + distance as u8);
    }
    if character == point {
        return Some(b'.');
    }
    if character.is_ascii() {
        return None;
    }
    match digit_in(table, character) {
        Some(digit) => Some(b'0' + digit),
        None => None,
    }
}

// The digits and points of a text, where they are few.
fn spelled(table: &[char; 10], point: char, text: &str) -> Option<ArrayVec<u8, FEW>>
    requires { all_differ table.now ≡ true }
{
    let mut gathered = ArrayVec::new();
    for character in text.chars() {
        if let Some(byte) = spelling(table, point, character) {
            if gathered.is_full() {
                return None;
            }
            gathered.push(byte);
        }
    }
    Some(gathered)
}

// The digits and points of a text. There is room for so many.
fn gathered(
    alloc: Global,
    table: &[char; 10],
    point: char,
    text: &str,
    room: usize,
) -> Result<Vec<u8>, AllocError>
    requires { all_differ table.now ≡ true }
{
    let mut gathered = Vec::with_capacity(alloc, room)?;
    for character in text.chars() {
        if let Some(byte) = spelling(table, point, character) {
            gathered.push(byte)?;
        }
    }
    Ok(gathered)
}

// Makes a number that of the digits in a text, where there are many of them, as a number has them.
#[inline(never)]
fn assign_many(
    alloc: Global,
    number: &mut Decimal,
    table: &[char; 10],
    point: char,
    text: &str,
) -> bool
    requires { all_differ table.now ≡ true }
{
    let digits = count_in(table, text);
    if digits < FEW || digits > MOST {
        return false;
    }
    match gathered(alloc, table, point, text, digits + 1) {
        Ok(spelled) => number.assign_from_utf8(spelled.as_slice()).is_ok(),
        Err(_) => false,
    }
}

// Makes a number the one that the digits in a text most likely are, where the character `point` is the point, and
// returns whether there is one.
pub(crate) fn assign_characters(
    alloc: Global,
    number: &mut Decimal,
    table: &[char; 10],
    point: char,
    text: &str,
) -> bool
    requires { all_differ table.now ≡ true }
{
    match spelled(table, point, text) {
        Some(few) => number.assign_from_utf8(few.as_slice()).is_ok(),
        None => assign_many(alloc, number, table, point, text),
    }
}
