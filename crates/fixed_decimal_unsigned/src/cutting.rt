//! A number without its digits from a magnitude up.

ghost use Rattle.fixed_decimal_unsigned.specs.Number.{place};
ghost use Rattle.fixed_decimal_unsigned.specs.Shifts.{Cuts};

use crate::places::place_of;
use crate::unsigned_decimal::UnsignedDecimal;
use fixed_decimal_digits::{ONES, cut_above};

impl UnsignedDecimal {
    /// Cuts away the digits from a magnitude up: `1234.5` cut at 2 is `34.5`. It does not allocate.
    pub fn set_max_position(&mut self, position: i16)
        ensures { Cuts (place position) self.old self.new }
    {
        let place = place_of(position);
        self.top = cut_above(&mut self.digits, self.top, place);
        self.low = self.low.min(place);
        self.high = place.saturating_sub(1).max(ONES);
    }

    /// The number without the digits from a magnitude up: `1234.5` and 2 give `34.5`. It does not allocate.
    pub fn with_max_position(mut self, position: i16) -> UnsignedDecimal
        ensures { Cuts (place position) self result }
    {
        self.set_max_position(position);
        self
    }
}
