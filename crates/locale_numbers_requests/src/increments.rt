//! Increments of a rounding, as `Intl.NumberFormat` and ICU have them.

ghost use Rattle.std.specs.Prelude.{◌≡◌, int_le, neg_ℤ, pos, true};
ghost use Rattle.locale_numbers_requests.specs.Increments.{digits_down, has_no_zeros, increment_named, multiples_at, raised};

use fixed_decimal::RoundingIncrement;
use locale_numbers_formats::value_beside;

// The highest position that is rounded at, and the most digits of a fraction.
const MOST: i32 = 32767;

/// To how many of the last digit that is shown a number is rounded: 50 is 5 with one zero behind.
#[derive(Clone, Copy, Debug, PartialEq, Eq)]
pub struct Increment {
    /// Without the zeros: `MultiplesOf5` of 50.
    pub digits: RoundingIncrement,
    /// How many zeros are behind: 1 of 50.
    pub zeros: u8,
}

/// What an increment at a position is rounded to: of 50 at -2 to multiples of 5 at -1, with two digits of a fraction.
#[derive(Clone, Copy, Debug, PartialEq, Eq)]
pub struct Multiples {
    /// Where it is rounded, -32768 to 32767.
    pub position: i16,
    /// To multiples of this there.
    pub increment: RoundingIncrement,
    /// So many digits of a fraction have to be shown for it, 0 to 32767; 0 where the rounding shows them.
    pub fraction_digits: i16,
}

// The words of increments, each with its digits and how many zeros are behind.
const INCREMENTS: [(&[u8], (RoundingIncrement, u8)); 15] = [
    (b"1", (RoundingIncrement::MultiplesOf1, 0)),
    (b"2", (RoundingIncrement::MultiplesOf2, 0)),
    (b"5", (RoundingIncrement::MultiplesOf5, 0)),
    (b"25", (RoundingIncrement::MultiplesOf25, 0)),
    (b"10", (RoundingIncrement::MultiplesOf1, 1)),
    (b"20", (RoundingIncrement::MultiplesOf2, 1)),
    (b"50", (RoundingIncrement::MultiplesOf5, 1)),
    (b"100", (RoundingIncrement::MultiplesOf1, 2)),
    (b"200", (RoundingIncrement::MultiplesOf2, 2)),
    (b"250", (RoundingIncrement::MultiplesOf25, 1)),
    (b"500", (RoundingIncrement::MultiplesOf5, 2)),
    (b"1000", (RoundingIncrement::MultiplesOf1, 3)),
    (b"2000", (RoundingIncrement::MultiplesOf2, 3)),
    (b"2500", (RoundingIncrement::MultiplesOf25, 2)),
    (b"5000", (RoundingIncrement::MultiplesOf5, 3)),
];

/// The increment that a word names: `MultiplesOf5` with one zero behind of `50`. `None` where it names none, as `3`. It does
/// not allocate.
pub fn increment_named(word: &[u8]) -> Option<Increment>
    ensures { result ≡ increment_named word.now }
{
    let (digits, zeros) = value_beside(&INCREMENTS, word)?;
    Some(Increment { digits, zeros })
}

impl Increment {
    /// Whether no zeros are behind: of 25, and not of 250.
    pub fn has_no_zeros(self) -> bool
        ensures { result ≡ has_no_zeros self }
    {
        self.zeros == 0
    }
}

// How many digits of a fraction there are down to a position, at most 32767.
fn digits_down(position: i16) -> i16
    requires { int_le (neg_ℤ (pos 32767)) position ≡ true }
    ensures { result ≡ digits_down position }
{
    if position < 0 { -position } else { 0 }
}

// The multiples at a higher position.
fn raised(position: i16, increment: Increment) -> Option<Multiples>
    ensures { result ≡ raised position increment }
{
    let raised = position as i32 + increment.zeros as i32;
    if -MOST <= position as i32 && raised <= MOST {
        Some(Multiples {
            position: raised as i16,
            increment: increment.digits,
            fraction_digits: digits_down(position),
        })
    } else {
        None
    }
}

/// What an increment at a position is rounded to: 5 at -2 to multiples of 5 there, and 50 at -2 to multiples of 5 at -1.
/// `None` where zeros are behind it and the position of these multiples would be above 32767, or the one that is given is
/// -32768, down to which no number can show so many digits of a fraction. It does not allocate.
pub fn multiples_at(position: i16, increment: Increment) -> Option<Multiples>
    ensures { result ≡ multiples_at position increment }
{
    if increment.has_no_zeros() {
        Some(Multiples {
            position,
            increment: increment.digits,
            fraction_digits: 0,
        })
    } else {
        raised(position, increment)
    }
}
