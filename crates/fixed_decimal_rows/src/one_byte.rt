//! Whole numbers of one digit to a byte: the plain program that the calls of `UnsignedDecimal`, which keeps two to a
//! byte, are compared with on many numbers.
ghost use Rattle.std.specs.Prelude.{◌<◌};

use crate::concatenation;
use crate::number::parsed;
use crate::rounding::Rounding;
use crate::step::Step;
use crate::words::{increment_of, mode_of};
use fixed_decimal::{
    Decimal, RoundingIncrement, Sign, SignedRoundingMode, UnsignedDecimal, UnsignedRoundingMode,
};
use rows::{Stop, filled, number_of, put, put_last_written, split_word};
use std::alloc::{AllocError, Global};

// What both kinds are compared after.
#[derive(Clone, Copy)]
enum Change<'t> {
    Nothing,
    // rounded up at a place
    Expanded(u8),
    // the digits from a place up taken away
    Cut(u8),
    // these digits put after
    Concatenated(&'t str),
    // with a minus or none, rounded at a place by a mode and an increment
    Rounded(bool, u8, SignedRoundingMode, RoundingIncrement),
}

// The digits that a number shows, the ones first, and whether a minus is before them.
#[derive(Drop)]
struct OneByte {
    is_negative: bool,
    digits: Vec<u8>,
}

// Where a number lies between two multiples that are next to each other.
#[derive(Clone, Copy)]
struct Between {
    // it is not the lower one
    is_past: bool,
    // it is in the middle
    is_half: bool,
    // it is nearer to the upper one
    is_nearer: bool,
    // the lower one is an odd count of increments
    is_odd: bool,
}

// Ten times the number in the name of an increment.
fn tenfold(increment: RoundingIncrement) -> u16
    ensures { 0 < result }
{
    match increment {
        RoundingIncrement::MultiplesOf1 => 10,
        RoundingIncrement::MultiplesOf2 => 20,
        RoundingIncrement::MultiplesOf5 => 50,
        RoundingIncrement::MultiplesOf25 => 250,
    }
}

impl Between {
    // Whether a mode takes the upper multiple by size.
    fn goes_up(self, mode: SignedRoundingMode, is_negative: bool) -> bool {
        match mode {
            SignedRoundingMode::Ceil => self.is_past && !is_negative,
            SignedRoundingMode::Floor => self.is_past && is_negative,
            SignedRoundingMode::HalfCeil => self.is_nearer || self.is_half && !is_negative,
            SignedRoundingMode::HalfFloor => self.is_nearer || self.is_half && is_negative,
            SignedRoundingMode::Unsigned(mode) => match mode {
                UnsignedRoundingMode::Expand => self.is_past,
                UnsignedRoundingMode::Trunc => false,
                UnsignedRoundingMode::HalfExpand => self.is_nearer || self.is_half,
                UnsignedRoundingMode::HalfTrunc => self.is_nearer,
                UnsignedRoundingMode::HalfEven => self.is_nearer || self.is_half && self.is_odd,
            },
        }
    }
}

// Puts the digits of a text to the others, its last one first.
fn push_digits(digits: &mut Vec<u8>, text: &str) -> Result<(), AllocError> {
    for character in text.as_bytes().iter().rev() {
        digits.push(character.saturating_sub(b'0'))?;
    }
    Ok(())
}

impl OneByte {
    // The number that digits spell.
    fn read(alloc: Global, text: &str) -> Result<OneByte, AllocError> {
        let mut read = OneByte {
            is_negative: false,
            digits: Vec::new(alloc),
        };
        let pushed = push_digits(&mut read.digits, text);
        filled(read, pushed)
    }

    // Rounds up at a place.
    fn expand(&mut self, place: usize) -> Result<(), AllocError> {
        let mut adds = false;
        for (index, digit) in self.digits.iter_mut().enumerate() {
            if index < place {
                adds = adds || *digit != 0;
                *digit = 0;
            } else if adds && *digit < 9 {
                *digit += 1;
                adds = false;
            } else if adds {
                *digit = 0;
            }
        }
        if adds {
            self.digits.push(1)?;
        }
        Ok(())
    }

    // The digit at a place, 0 where it shows none.
    fn digit_at(&self, place: usize) -> u8 {
        match self.digits.get(place) {
            Some(digit) => *digit,
            None => 0,
        }
    }

    // Whether a digit below a place is not 0.
    fn has_below(&self, place: usize) -> bool {
        for digit in self.digits.iter().take(place) {
            if *digit != 0 {
                return true;
            }
        }
        false
    }

    // The three digits from right below a place up, as a number.
    fn three_at(&self, place: usize) -> u16 {
        let below = self.digit_at(place.saturating_sub(1)) as u16;
        let here = self.digit_at(place) as u16;
        let above = self.digit_at(place.saturating_add(1)) as u16;
        above * 100 + here * 10 + below
    }

    // Where it lies between multiples of a tenfold increment at a place; a hundred is an even count of each.
    fn between(&self, place: usize, tenfold: u16) -> Between
        requires { 0 < tenfold }
    {
        let three = self.three_at(place);
        let rest = three % tenfold;
        let twice = rest.saturating_mul(2);
        let has_more = self.has_below(place.saturating_sub(1));
        Between {
            is_past: rest != 0 || has_more,
            is_half: twice == tenfold && !has_more,
            is_nearer: twice > tenfold || twice == tenfold && has_more,
            is_odd: three / tenfold % 2 == 1,
        }
    }

    // Puts a number for the two digits from a place up, and zeros below; what is above a hundred is added to the others.
    fn put_at(&mut self, place: usize, number: u16) -> Result<(), AllocError> {
        let mut left = number;
        for (index, digit) in self.digits.iter_mut().enumerate() {
            if index < place {
                *digit = 0;
            } else {
                if index < place.saturating_add(2) {
                    *digit = 0;
                }
                left = left.saturating_add(*digit as u16);
                *digit = (left % 10) as u8;
                left /= 10;
            }
        }
        if left > 0 {
            self.digits.push((left % 10) as u8)?;
        }
        Ok(())
    }

    // Rounds at a place, which is above 0 and at most that of the highest digit.
    fn round(
        &mut self,
        place: usize,
        mode: SignedRoundingMode,
        increment: RoundingIncrement,
    ) -> Result<(), AllocError> {
        let tenfold = tenfold(increment);
        let up = self.between(place, tenfold).goes_up(mode, self.is_negative);
        let lower = self.three_at(place) / tenfold;
        let count = lower.saturating_add(up as u16);
        self.put_at(place, count.saturating_mul(tenfold / 10))
    }

    // Puts the digits of a text after its own.
    fn concatenate_end(&mut self, text: &str) -> Result<(), AllocError> {
        let count = self.digits.len();
        push_digits(&mut self.digits, text)?;
        let len = self.digits.len();
        self.digits.rotate_left(count.min(len));
        Ok(())
    }

    // Makes a change.
    fn change(&mut self, change: Change<'_>) -> Result<(), AllocError> {
        match change {
            Change::Nothing => Ok(()),
            Change::Expanded(place) => self.expand(place as usize),
            Change::Cut(place) => {
                self.digits.truncate(place as usize);
                Ok(())
            }
            Change::Concatenated(text) => self.concatenate_end(text),
            Change::Rounded(is_negative, place, mode, increment) => {
                self.is_negative = is_negative;
                self.round(place as usize, mode, increment)
            }
        }
    }

    // Its digits, the highest first, after a minus where there is one.
    fn text(&self, alloc: Global) -> Result<String, AllocError> {
        let mut text = String::from_str(alloc, if self.is_negative { "-" } else { "" })?;
        for digit in self.digits.iter().rev() {
            text.push(char::from(digit.saturating_add(b'0')))?;
        }
        Ok(text)
    }

    // Makes a change; its digits then.
    fn changed_text(&mut self, alloc: Global, change: Change<'_>) -> Result<String, AllocError> {
        self.change(change)?;
        self.text(alloc)
    }
}

// A digit of the next number of a sequence: zeros and nines come oftener than others.
fn digit_of(state: u64) -> char {
    match state >> 60 {
        digit @ 0..=9 => char::from(b'0'.saturating_add(digit as u8)),
        10..=11 => '0',
        _ => '9',
    }
}

// A number with this many digits after its first, 1, by a sequence that begins at a seed.
fn made(alloc: Global, count: u8, seed: u64) -> Result<String, AllocError> {
    let mut text = String::from_str(alloc, "1")?;
    let mut state = seed;
    for _ in 0..count {
        state = state
            .wrapping_mul(6364136223846793005)
            .wrapping_add(1442695040888963407);
        text.push(digit_of(state))?;
    }
    Ok(text)
}

// The text of the number of a text after a change, by the plain program.
fn plain_text(alloc: Global, text: &str, change: Change<'_>) -> Result<String, AllocError> {
    let mut plain = OneByte::read(alloc, text)?;
    let shown = plain.changed_text(alloc, change);
    drop(plain);
    shown
}

// Writes the text of a number, with a minus or none, after a rounding, by the calls.
fn put_rounded(
    out: &mut String,
    number: UnsignedDecimal,
    is_negative: bool,
    it: Rounding,
) -> Result<(), Stop> {
    let sign = if is_negative {
        Sign::Negative
    } else {
        Sign::None
    };
    let number = Decimal::new(sign, number);
    let rounded = number.rounded_with_mode_and_increment(it.position, it.mode, it.increment)?;
    put_last_written(out, rounded)
}

// Writes the text of the number of a text after a change, by the calls.
fn put_packed(out: &mut String, text: &str, change: Change<'_>) -> Result<(), Stop> {
    let mut number = parsed(UnsignedDecimal::try_from_str(*out.allocator(), text))?;
    match change {
        Change::Nothing => (),
        Change::Expanded(place) => number.expand(place as i16),
        Change::Cut(place) => number.set_max_position(place as i16),
        Change::Concatenated(back) => {
            let step = Step {
                name: "concatenate_end",
                passed: back,
            };
            return concatenation::answer(number, step, out);
        }
        Change::Rounded(is_negative, place, mode, increment) => {
            let position = place as i16;
            let it = Rounding {
                position,
                mode,
                increment,
            };
            return put_rounded(out, number, is_negative, it);
        }
    }
    put_last_written(out, number)
}

// Whether the calls show this text after a change.
fn is_shown(alloc: Global, packed: &str, change: Change<'_>, plain: &str) -> Result<bool, Stop> {
    let mut out = String::new(alloc);
    let written = put_packed(&mut out, packed, change);
    let is_same = out.as_str() == plain;
    drop(out);
    written?;
    Ok(is_same)
}

// Whether both show the same digits after a change.
fn is_same(alloc: Global, packed: &str, plain: &str, change: Change<'_>) -> Result<bool, Stop> {
    let plain = plain_text(alloc, plain, change)?;
    let is_same = is_shown(alloc, packed, change, plain.as_str());
    drop(plain);
    is_same
}

// A text with this many zeros after it.
fn with_zeros(alloc: Global, text: &str, count: usize) -> Result<String, AllocError> {
    let mut text = String::from_str(alloc, text)?;
    for _ in 0..count {
        text.push('0')?;
    }
    Ok(text)
}

// Whether both are the same where the digits after an index are put after those before it.
fn concatenates_alike(alloc: Global, text: &str, index: u8) -> Result<bool, Stop> {
    let Some((front, back)) = text.split_at_checked(index as usize) else {
        return Err(Stop::Unknown);
    };
    let zeros = with_zeros(alloc, front, back.len())?;
    let alike = is_same(alloc, zeros.as_str(), front, Change::Concatenated(back));
    drop(zeros);
    alike
}

// Whether both are the same after each of the changes, at each place of a number with this many digits after its
// first.
fn is_alike(alloc: Global, text: &str, count: u8) -> Result<bool, Stop> {
    let mut alike = is_same(alloc, text, text, Change::Nothing)?;
    for place in 1..count {
        alike = alike && is_same(alloc, text, text, Change::Expanded(place))?;
        alike = alike && is_same(alloc, text, text, Change::Cut(place))?;
        alike = alike && concatenates_alike(alloc, text, place)?;
    }
    Ok(alike)
}

/// The answer of a row that names how many digits are after a first, and how many such numbers are tried: how many
/// of them differ.
pub fn answer(alloc: Global, fields: &[&str], out: &mut String) -> Result<(), Stop> {
    let [count, seeds] = fields else {
        return Err(Stop::Unknown);
    };
    let count = number_of::<u8>(count)?;
    let mut differ = 0u32;
    for seed in 0..number_of::<u16>(seeds)? {
        let text = made(alloc, count, seed as u64)?;
        if !is_alike(alloc, text.as_str(), count)? {
            differ = differ.saturating_add(1);
        }
    }
    put(out, &differ)
}

// How many of the roundings of a number by a mode and an increment differ, at each place below this one, and with a
// minus and without.
fn rounded_unlike(
    alloc: Global,
    text: &str,
    places: u8,
    mode: SignedRoundingMode,
    increment: RoundingIncrement,
) -> Result<u32, Stop> {
    let mut differ = 0u32;
    for place in 1..places {
        let plain = Change::Rounded(false, place, mode, increment);
        let minus = Change::Rounded(true, place, mode, increment);
        if !(is_same(alloc, text, text, plain)? && is_same(alloc, text, text, minus)?) {
            differ = differ.saturating_add(1);
        }
    }
    Ok(differ)
}

// The same, of the number with this many digits after its first, by the sequence of a seed, and then those of an
// ending.
fn ended_unlike(
    alloc: Global,
    count: u8,
    seed: u64,
    ending: &str,
    rounding: &str,
) -> Result<u32, Stop> {
    let (mode, increment) = split_word(rounding);
    let mode = mode_of(mode)?;
    let increment = increment_of(increment)?;
    let mut text = made(alloc, count, seed)?;
    let ended = text.push_str(ending);
    let text = filled(text, ended)?;
    let places = text.len().min(255) as u8;
    let differ = rounded_unlike(alloc, text.as_str(), places, mode, increment);
    drop(text);
    differ
}

/// The answer of a row that names a mode and an increment, the last digits, how many digits are between a first and
/// these, and how many such numbers are tried: how many of their roundings differ.
pub fn rounded_answer(alloc: Global, fields: &[&str], out: &mut String) -> Result<(), Stop> {
    let [rounding, ending, count, seeds] = fields else {
        return Err(Stop::Unknown);
    };
    let count = number_of::<u8>(count)?;
    let mut differ = 0u32;
    for seed in 0..number_of::<u16>(seeds)? {
        let unlike = ended_unlike(alloc, count, seed as u64, ending, rounding)?;
        differ = differ.saturating_add(unlike);
    }
    put(out, &differ)
}
