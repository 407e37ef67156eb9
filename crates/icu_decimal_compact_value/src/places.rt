//! Places: magnitudes counted from the lowest one, -32768, up.

ghost use Rattle.std.specs.Prelude.{◌≡◌};
ghost use Rattle.fixed_decimal.specs.Number.{place as place_is};
ghost use Rattle.icu_decimal_compact_value.specs.ShownValue.{magnitude};

use fixed_decimal::UnsignedDecimal;

// The place of the ones.
pub const ONES: u16 = 32768;

// The place of a magnitude.
pub fn place_of(magnitude: i16) -> u16
    ensures { result ≡ place_is magnitude }
{
    (magnitude as i32 + 32768) as u16
}

// The magnitude at a place.
pub fn magnitude_of(place: u16) -> i16
    ensures { place_is result ≡ place }
{
    (place as i32 - 32768) as i16
}

// The place of a number's magnitude: that of its first digit, or of the ones.
#[tactic(auto, using(crate::proofs::MagnitudeLemmas::start_is))]
pub fn magnitude_place(number: &UnsignedDecimal) -> u16
    ensures { result ≡ magnitude 32768 number.now.count }
{
    place_of(number.nonzero_magnitude_start())
}
