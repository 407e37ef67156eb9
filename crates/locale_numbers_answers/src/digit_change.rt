//! Options that round no digit of a text away: what they make of its digits.

ghost use Rattle.std.specs.Prelude.{◌≡◌, IfSome, IsTrue};
ghost use Rattle.fixed_decimal.specs.Number.{place};
ghost use Rattle.icu_decimal_direct.specs.TextDigits.{number_spelled};
ghost use Rattle.locale_numbers_formats.specs.Changed.{signed_as};
ghost use Rattle.locale_numbers_answers.specs.DigitChange.{ChangesSo, KeepsZeros, LeavesTo};

use fixed_decimal::RoundingIncrement;
use icu_decimal_direct::TextDigits;
use locale_numbers_formats::{LeadingZeros, NumberOptions, Rounding, SignAsked, TrailingZeros};

/// What options make of digits of which they round none away: so many fraction digits at least, and the sign that is asked
/// for.
///
/// The options for `-2,half-even,1` and `always` show two at least of at most two, with `Show(Always)`: they make `+5.00` of 5.
#[derive(Clone, Copy, Debug)]
pub struct DigitChange {
    /// How many fraction digits are shown at least: two, at most 32.
    pub least: u8,
    /// How many fraction digits a number may have, so that none is rounded away: two, at most 32.
    pub most: u8,
    /// Which sign is written.
    pub sign: SignAsked,
}

// The place of the ones.
const ONES: u16 = 32768;

// The place of a magnitude.
fn place_of(magnitude: i16) -> u16
    ensures { result ≡ place magnitude }
{
    (magnitude as i32 + 32768) as u16
}

// How many fraction digits a rounding shows at least, and how many it leaves as they are, where it is known to leave some.
fn counts_by(rounding: Rounding) -> Option<(u8, u8)>
    ensures { IfSome result (λ counts. LeavesTo rounding counts.0 counts.1) }
{
    match rounding {
        Rounding::Usual | Rounding::Cash | Rounding::AsGiven => Some((0, 32)),
        Rounding::At(position, _, RoundingIncrement::MultiplesOf1) => {
            let place = place_of(position);
            if place > ONES || place < ONES - 32 {
                return None;
            }
            let count = (ONES - place) as u8;
            Some((count, count))
        }
        Rounding::At(_, _, _) | Rounding::Significant(_, _) | Rounding::Either(_, _, _, _) => None,
    }
}

// Whether no zero is trimmed of a number that is not rounded above the ones.
fn keeps_zeros(front: LeadingZeros, end: TrailingZeros) -> bool
    ensures { IsTrue result → KeepsZeros front end }
{
    match (front, end) {
        (LeadingZeros::Keep, TrailingZeros::Keep) => true,
        (LeadingZeros::TrimRoundedZero, TrailingZeros::Keep) => true,
        _ => false,
    }
}

impl DigitChange {
    /// That of these options, for a number without a unit. `None`: a digit may be rounded away, or a zero trimmed, or one is
    /// added before the point. It does not allocate.
    pub fn of(options: &NumberOptions) -> Option<DigitChange>
        ensures { IfSome result (ChangesSo options.now) }
    {
        let whole = place_of(options.integer_digits);
        let more = place_of(options.fraction_digits);
        if whole > ONES + 1 || more > ONES + 32 {
            return None;
        }
        if !keeps_zeros(options.leading_zeros, options.zeros) {
            return None;
        }
        let (shown, most) = counts_by(options.rounding)?;
        let asked = more.saturating_sub(ONES) as u8;
        Some(DigitChange {
            least: asked.max(shown),
            most,
            sign: options.sign,
        })
    }

    /// The digits with the sign that is asked for: with `Show(Always)` those of `5` are those of `+5`. It does not allocate.
    pub fn signed<'t>(&self, digits: &TextDigits<'t>) -> TextDigits<'t>
        ensures { number_spelled result ≡ signed_as self.now.sign (number_spelled digits.now) }
    {
        match self.sign {
            SignAsked::Keep => *digits,
            SignAsked::Show(display) => digits.with_sign_display(display),
        }
    }
}
