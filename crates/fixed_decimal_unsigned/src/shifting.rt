//! A number times a power of ten, the digits shown with it.

ghost use Rattle.std.specs.Prelude.{◌≡◌, ◌+◌, ◌-◌, ◌<◌, ◌≤◌, length, IsTrue, ◌⊎◌, false};
ghost use Rattle.fixed_decimal_unsigned.specs.Shifts.{rise, fall, Shifts, plain_zero};

use crate::unsigned_decimal::UnsignedDecimal;
use fixed_decimal_digits::{Digits, ONES};

// Whether a place stays one when it is moved.
fn is_place_moved(place: u16, by: i16) -> bool
    ensures within { IsTrue result → fall by ≤ place + rise by }
    ensures below { IsTrue result → place + rise by < 65536 + fall by }
    ensures beyond { result ≡ false → (place + rise by < fall by) ⊎ (65536 + fall by ≤ place + rise by) }
{
    let moved = place as i32 + by as i32;
    moved >= 0 && moved <= u16::MAX as i32
}

// A place moved up or down.
fn moved_place(place: u16, by: i16) -> u16
    requires within { fall by ≤ place + rise by }
    requires below { place + rise by < 65536 + fall by }
    ensures { result + fall by ≡ place + rise by }
{
    (place as i32 + by as i32) as u16
}

// The place of the first digit, moved up or down; zero has none to move.
fn moved_top(digits: &Digits, top: u16, by: i16) -> u16
    requires within { 0 < length digits.now.items → fall by ≤ top + rise by }
    requires below { 0 < length digits.now.items → top + rise by < 65536 + fall by }
    ensures none { length digits.now.items ≡ 0 → result ≡ top }
    ensures some { 0 < length digits.now.items → result + fall by ≡ top + rise by }
{
    if digits.is_empty() {
        top
    } else {
        moved_place(top, by)
    }
}

impl UnsignedDecimal {
    // Makes the number zero, shown as one digit.
    fn set_zero(&mut self)
        ensures { self.new ≡ plain_zero }
    {
        self.digits.clear();
        self.top = ONES;
        self.low = ONES;
        self.high = ONES;
    }

    /// Multiplies by ten to the power `delta`, the digits shown with it: `12` and 2 give `1200`.
    ///
    /// The number becomes zero, shown `0`, where an end of the range would pass magnitudes -32768 to 32767. It does not
    /// allocate.
    pub fn multiply_pow10(&mut self, delta: i16)
        ensures { Shifts delta self.old self.new }
    {
        if !is_place_moved(self.low, delta) {
            self.set_zero();
            return;
        }
        if !is_place_moved(self.high, delta) {
            self.set_zero();
            return;
        }
        self.top = moved_top(&self.digits, self.top, delta);
        self.low = moved_place(self.low, delta).min(ONES);
        self.high = moved_place(self.high, delta).max(ONES);
    }

    /// The number times ten to the power `delta`, the digits shown with it, as `multiply_pow10` has it: `12` and 2 give
    /// `1200`.
    ///
    /// It does not allocate.
    pub fn multiplied_pow10(mut self, delta: i16) -> UnsignedDecimal
        ensures { Shifts delta self result }
    {
        self.multiply_pow10(delta);
        self
    }
}
