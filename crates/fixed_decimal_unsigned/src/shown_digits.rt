//! The digits that are shown on each side of the point.

ghost use Rattle.std.specs.Prelude.{◌≡◌};
ghost use Rattle.fixed_decimal_unsigned.specs.Number.{fraction_digits, whole_digits};

use crate::unsigned_decimal::UnsignedDecimal;
use fixed_decimal_digits::{ONES, ShownDigits, digits_at};

impl UnsignedDecimal {
    /// The digits shown before the point, from the highest to the ones: of `012.30` they are 0, 1, 2. It does not
    /// allocate.
    pub fn whole_digits(&self) -> ShownDigits<'_>
        ensures { result ≡ whole_digits self.now }
    {
        digits_at(&self.digits, self.top, ONES, self.high - (ONES - 1))
    }

    /// The digits shown after the point, from the tenths down: of `012.30` they are 3, 0, and of `12` there are none.
    /// It does not allocate.
    pub fn fraction_digits(&self) -> ShownDigits<'_>
        ensures { result ≡ fraction_digits self.now }
    {
        digits_at(&self.digits, self.top, self.low, ONES - self.low)
    }
}
