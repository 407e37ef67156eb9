//! The magnitudes of the first and of the last digit that is not zero.

ghost use Rattle.std.specs.Prelude.{◌≡◌, ◌<◌, pos};
ghost use Rattle.fixed_decimal_unsigned.specs.NonzeroPlaces.{IsFirstPlace, IsLastPlace};
ghost use Rattle.fixed_decimal_unsigned.specs.Number.{place};

use crate::places::magnitude_of;
use crate::unsigned_decimal::UnsignedDecimal;

impl UnsignedDecimal {
    /// The magnitude of the first digit that is not zero: 1 of `012.30`, and 0 of zero. It does not allocate.
    pub fn nonzero_magnitude_start(&self) -> i16
        ensures zero { self.now.count ≡ 0 → result ≡ pos 0 }
        ensures value { 0 < self.now.count → IsFirstPlace self.now.count (place result) }
    {
        magnitude_of(self.top)
    }

    /// The magnitude of the last digit that is not zero: -1 of `012.30`, and 0 of zero. It does not allocate.
    pub fn nonzero_magnitude_end(&self) -> i16
        ensures zero { self.now.count ≡ 0 → result ≡ pos 0 }
        ensures value { 0 < self.now.count → IsLastPlace self.now.count (place result) }
    {
        if self.digits.is_empty() {
            return 0;
        }
        magnitude_of((self.top as usize + 1 - self.digits.len()) as u16)
    }
}
