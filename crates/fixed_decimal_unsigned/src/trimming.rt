//! Zeros at both ends of a number, removed or shown up to a position.

ghost use Rattle.std.specs.Prelude.{◌≡◌, ◌+◌, ◌-◌, ◌≤◌, min, length};
ghost use Rattle.fixed_decimal_unsigned.specs.Number.{place};
ghost use Rattle.fixed_decimal_unsigned.specs.Shifts.{TrimsStart, TrimsEnd, TrimsWhole, PadsStart, PadsEnd};

use crate::places::place_of;
use crate::unsigned_decimal::UnsignedDecimal;
use fixed_decimal_digits::{Digits, ONES};

// The lower of a place and the place of the last digit.
fn end_below(digits: &Digits, top: u16, most: u16) -> u16
    requires { length digits.now.items ≤ top + 1 }
    ensures { result ≡ min most (top + 1 - length digits.now.items) }
{
    (top as usize + 1 - digits.len()).min(most as usize) as u16
}

impl UnsignedDecimal {
    /// Removes the zeros that the number begins with: `012` becomes `12`. It does not allocate.
    pub fn trim_start(&mut self)
        ensures { TrimsStart self.old self.new }
    {
        self.high = self.top.max(ONES);
    }

    /// Removes the zeros that the number ends in after the point: `1.20` becomes `1.2`, and `120` stays. It does not
    /// allocate.
    pub fn trim_end(&mut self)
        ensures { TrimsEnd self.old self.new }
    {
        self.low = end_below(&self.digits, self.top, ONES);
    }

    /// Removes the zeros after the point where there is no other digit after it: `1.00` becomes `1`, and `1.20`
    /// stays. It does not allocate.
    pub fn trim_end_if_integer(&mut self)
        ensures { TrimsWhole self.old self.new }
    {
        if end_below(&self.digits, self.top, ONES) == ONES {
            self.low = ONES;
        }
    }

    /// Shows zeros before the number up to a position, or no more than it needs: `12` and 4 give `0012`.
    ///
    /// A position of 0 or below changes nothing. It does not allocate.
    pub fn pad_start(&mut self, position: i16)
        ensures { PadsStart (place position) self.old self.new }
    {
        let place = place_of(position);
        if place > ONES {
            self.high = self.top.max(place - 1);
        }
    }

    /// Shows zeros after the number down to a position, or no more than it needs: `12` and -2 give `12.00`.
    ///
    /// A position above 0 changes nothing. It does not allocate.
    pub fn pad_end(&mut self, position: i16)
        ensures { PadsEnd (place position) self.old self.new }
    {
        let place = place_of(position);
        if place <= ONES {
            self.low = end_below(&self.digits, self.top, place);
        }
    }

    /// The number without the zeros that it begins with: `012` gives `12`. It does not allocate.
    pub fn trimmed_start(mut self) -> UnsignedDecimal
        ensures { TrimsStart self result }
    {
        self.trim_start();
        self
    }

    /// The number without the zeros that it ends in after the point: `1.20` gives `1.2`. It does not allocate.
    pub fn trimmed_end(mut self) -> UnsignedDecimal
        ensures { TrimsEnd self result }
    {
        self.trim_end();
        self
    }

    /// The number without the zeros after the point where there is no other digit after it: `1.00` gives `1`, and
    /// `1.20` stays.
    ///
    /// It does not allocate.
    pub fn trimmed_end_if_integer(mut self) -> UnsignedDecimal
        ensures { TrimsWhole self result }
    {
        self.trim_end_if_integer();
        self
    }

    /// The number with zeros before it up to a position, or no more than it needs: `12` and 4 give `0012`.
    ///
    /// A position of 0 or below changes nothing. It does not allocate.
    pub fn padded_start(mut self, position: i16) -> UnsignedDecimal
        ensures { PadsStart (place position) self result }
    {
        self.pad_start(position);
        self
    }

    /// The number with zeros after it down to a position, or no more than it needs: `12` and -2 give `12.00`.
    ///
    /// A position above 0 changes nothing. It does not allocate.
    pub fn padded_end(mut self, position: i16) -> UnsignedDecimal
        ensures { PadsEnd (place position) self result }
    {
        self.pad_end(position);
        self
    }
}
