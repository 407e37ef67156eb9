//! Places of digits, and of significant ones: a place counts magnitudes up from the lowest one, -32768.

ghost use Rattle.std.specs.Prelude.{◌≡◌};
ghost use Rattle.fixed_decimal.specs.Number.{place as place_is};
ghost use Rattle.icu_decimal_compact_value.specs.ShownValue.{magnitude};
ghost use Rattle.locale_numbers_formats.specs.Changed.{last_of, takes_digits};

use crate::options::RoundingPriority;
use fixed_decimal::UnsignedDecimal;

// The place of a magnitude.
pub(crate) fn place_of(magnitude: i16) -> u16
    ensures { result ≡ place_is magnitude }
{
    (magnitude as i32 + 32768) as u16
}

// The magnitude at a place.
pub(crate) fn magnitude_of(place: u16) -> i16
    ensures { place_is result ≡ place }
{
    (place as i32 - 32768) as i16
}

// The place of the first digit that is not zero, or of the ones.
#[tactic(auto, using(icu_decimal_compact_value::proofs::MagnitudeLemmas::start_is))]
fn first_place(number: &UnsignedDecimal) -> u16
    ensures { result ≡ magnitude 32768 number.now.count }
{
    place_of(number.nonzero_magnitude_start())
}

// The place of the last of so many digits.
pub(crate) fn last_place_of(number: &UnsignedDecimal, digits: u16) -> u16
    ensures { result ≡ last_of digits number.now }
{
    first_place(number).saturating_sub(digits.saturating_sub(1))
}

impl RoundingPriority {
    // Whether digits count whose last one is at this place, and not a position at that one.
    pub(crate) fn takes_digits(self, last: u16, position: u16) -> bool
        ensures { result ≡ takes_digits self last position }
    {
        match self {
            RoundingPriority::MorePrecision => last <= position,
            RoundingPriority::LessPrecision => position < last,
        }
    }
}
