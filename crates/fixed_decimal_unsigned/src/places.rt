//! Places: magnitudes counted from the lowest one, -32768, up.

ghost use Rattle.std.specs.Prelude.{◌≡◌};
ghost use Rattle.fixed_decimal_unsigned.specs.Number.{place as place_is};

// The place of a magnitude.
pub fn place_of(magnitude: i16) -> u16
    ensures { result ≡ place_is magnitude }
{
    (magnitude as i32 + 32768) as u16
}

// The magnitude at a place.
pub fn magnitude_of(place: u16) -> i16
    ensures { place_is result ≡ place }
{
    (place as i32 - 32768) as i16
}
