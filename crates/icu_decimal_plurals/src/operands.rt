//! The operands of plural rules.

ghost use Rattle.std.specs.Prelude.{◌≡◌, ◌+◌, ◌-◌, ◌^◌, ◌<◌, ◌≤◌};
ghost use Rattle.fixed_decimal.specs.Number.{digit, place as place_is};
ghost use Rattle.icu_decimal_plurals.specs.Operands.{operands_shown, part_of, trimmed};

use crate::operand::Operand;
use fixed_decimal::UnsignedDecimal;
use std::marker::Model;

/// What plural rules see of a number as it is shown: of `1.50` the integer digits 1 and the two fraction digits 50.
#[derive(Clone, Copy, Debug)]
pub struct PluralOperands {
    i: u64,
    v: u8,
    f: u64,
    t: u64,
    w: u8,
    c: u8,
}

impl Model for PluralOperands {
    ghost use Rattle.icu_decimal_plurals.specs.Operands.{Operands};

    ghost Value = { Operands };

    ghost view = { λ o. record { i = o.i; v = o.v; f = o.f; t = o.t; w = o.w; c = o.c } };

    ghost inverse = { λ o. record { i = o.i; v = o.v; f = o.f; t = o.t; w = o.w; c = o.c } };
}

// How many fraction digits are shown.
fn fraction_len(number: &UnsignedDecimal) -> u16
    ensures { number.now.low + result ≡ 32768 }
{
    (0 - *number.magnitude_range().start() as i32) as u16
}

// The magnitude at a place.
fn magnitude_of(place: u16) -> i16
    ensures { place_is result ≡ place }
{
    (place as i32 - 32768) as i16
}

// The digit at a place.
fn digit_over(number: &UnsignedDecimal, place: u16) -> u8
    ensures value { result ≡ digit number.now.count place }
    ensures ten { result < 10 }
{
    number.digit_at(magnitude_of(place))
}

// How many digits are from a place up to the highest one shown.
fn digits_from(number: &UnsignedDecimal, place: u16) -> u32
    requires { place ≤ 32768 }
    ensures { number.now.count < 10 ^ (place + result) }
{
    (i32::from(*number.magnitude_range().end()) + 32769 - i32::from(place)) as u32
}

// So many digits from a place on, as a number. Those above the highest one shown are zeros, and are not asked for.
fn part_of(number: &UnsignedDecimal, place: u16, places: u16) -> u64
    requires place { place ≤ 32768 }
    requires places { places ≤ 18 }
    ensures { result ≡ part_of number.now.count place places }
{
    let mut part = 0u64;
    let mut left = digits_from(number, place).min(u32::from(places)) as u16;
    while left > 0 {
        left -= 1;
        part = part * 10 + u64::from(digit_over(number, place + left));
    }
    part
}

// Of so many digits, those up to the last one that is not zero: as a number, and how many they are.
#[tactic(auto, using(crate::proofs::OperandsLemmas::trim_goes_on, crate::proofs::OperandsLemmas::trim_stops, crate::proofs::OperandsLemmas::trim_ends, crate::proofs::OperandsLemmas::trim_nothing))]
fn trimmed(count: u8, digits: u64) -> (u64, u8)
    ensures digits { result.0 ≡ (trimmed count digits).0 }
    ensures count { result.1 ≡ (trimmed count digits).1 }
{
    if digits == 0 {
        return (0, 0);
    }
    let mut left = count;
    let mut rest = digits;
    while left > 0 && rest % 10 == 0 {
        left -= 1;
        rest /= 10;
    }
    (rest, left)
}

// The operands of these digits and an exponent.
fn operands_by(i: u64, f: u64, v: u8, c: u8) -> PluralOperands
    ensures { result ≡ operands_shown i v f c }
{
    let (t, w) = trimmed(v, f);
    PluralOperands { i, v, f, t, w, c }
}

impl PluralOperands {
    ghost use Rattle.icu_decimal_plurals.specs.Operands.{operands_of};
    ghost use Rattle.icu_decimal_plurals.specs.Conditions.{value_of};
    ghost use Rattle.icu_decimal_plurals.specs.ExactNumbers.{is_exactly};

    /// The operands of a number that is shown with an exponent of ten beside it: of `1.50` and 0 the integer digits 1
    /// and the fraction digits 50, of `1.2` and 3, which is 1200, the integer digits 1200 and no fraction digit.
    ///
    /// Of the number written out at most the last 18 integer digits and the first 18 fraction digits are kept. It does
    /// not allocate. The name is ICU4X's; the source is UTS 35, part 3, section 5.1.1.
    pub fn from_significand_and_exponent(significand: &UnsignedDecimal, exponent: u8) -> Self
        ensures { result ≡ operands_of significand.now exponent }
    {
        let ones = 32768 - u16::from(exponent);
        let v = fraction_len(significand)
            .saturating_sub(u16::from(exponent))
            .min(18);
        let i = part_of(significand, ones, 18);
        let f = part_of(significand, ones - v, v);
        operands_by(i, f, v as u8, exponent)
    }

    /// The operands of a number without an exponent, by its integer digits as a number, at most 18, its fraction digits
    /// as one, and how many these are: of 1, 50 and 2 those of `1.50`, of 1, 5 and 2 those of `1.05`. It does not
    /// allocate.
    pub fn from_digits(i: u64, f: u64, v: u8) -> Self
        ensures { result ≡ operands_shown i v f 0 }
    {
        operands_by(i, f, v, 0)
    }

    // The whole number that an operand is: none for `N` where a fraction digit is not zero.
    pub(crate) fn value_of(&self, operand: Operand) -> Option<u64>
        ensures { result ≡ value_of operand self.now }
    {
        match operand {
            Operand::N => { if self.t == 0 { Some(self.i) } else { None } }
            Operand::I => Some(self.i),
            Operand::V => Some(u64::from(self.v)),
            Operand::W => Some(u64::from(self.w)),
            Operand::F => Some(self.f),
            Operand::T => Some(self.t),
            Operand::C => Some(u64::from(self.c)),
        }
    }

    /// Whether this is the whole number given, shown without fraction digits and without an exponent: 1 is it of `1`
    /// and of `01`, but neither of `1.0` nor of `1` with the exponent 3. Only the last 18 integer digits count. It does
    /// not allocate.
    pub fn is_exactly(&self, number: u64) -> bool
        ensures { result ≡ is_exactly number self.now }
    {
        self.value_of(Operand::N) == Some(number) && self.v == 0 && self.c == 0
    }
}
