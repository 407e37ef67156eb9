//! Places of digits, and how far exponents and shifts move them.

ghost use Rattle.std.specs.Prelude.{◌≡◌, ◌+◌, ◌-◌, ◌*◌, ◌%◌, ◌^◌, ◌<◌, ◌≤◌, max, IsFalse, IsTrue};
ghost use Rattle.fixed_decimal.specs.NonzeroPlaces.{IsFirstPlace, IsLastPlace};
ghost use Rattle.fixed_decimal.specs.Number.{place};
ghost use Rattle.fixed_decimal.specs.Shifts.{fall, rise};
ghost use Rattle.icu_decimal_scientific.specs.Steps.{IsLowered, IsRaised};

use fixed_decimal::UnsignedDecimal;

// The place of a magnitude: the ones are at 32768.
pub(crate) fn place_of(magnitude: i16) -> u32
    ensures { result ≡ place magnitude }
{
    (magnitude as i32 + 32768) as u32
}

// The magnitude of a place.
pub(crate) fn magnitude_of(at: u32) -> i16
    requires { at < 65536 }
    ensures { place result ≡ at }
{
    (at as i32 - 32768) as i16
}

// How far an exponent moves places up.
pub(crate) fn rise_of(exponent: i32) -> u32
    ensures { result ≡ rise exponent }
{
    exponent.max(0) as u32
}

// How far an exponent moves places down.
pub(crate) fn fall_of(exponent: i32) -> u32
    ensures { result ≡ fall exponent }
{
    exponent.min(0).unsigned_abs()
}

// A shift that divides by ten so often.
fn shift_down(by: u16) -> i16
    requires { by < 32769 }
    ensures fall { fall result ≡ by }
    ensures rise { rise result ≡ 0 }
{
    (-(by as i32)) as i16
}

// A shift that multiplies by ten so often.
fn shift_up(by: u16) -> i16
    requires { by < 32768 }
    ensures fall { fall result ≡ 0 }
    ensures rise { rise result ≡ by }
{
    by as i16
}

// Divides a number by ten so often, where no digit shown is lost.
pub(crate) fn lower(number: &mut UnsignedDecimal, by: u16)
    requires { by ≤ number.old.low }
    ensures { IsLowered by number.old number.new }
{
    let _number = number.magnitude_range(); // for the proof
    number.multiply_pow10(shift_down(by));
}

// Divides a number by ten so often, where no digit is lost but zeros at its end, and shows none of these.
pub(crate) fn lower_trimmed(number: &mut UnsignedDecimal, by: u16)
    requires by { by < 32769 }
    requires whole { number.old.count % 10 ^ by ≡ 0 }
    ensures count { number.new.count * 10 ^ by ≡ number.old.count }
    ensures high { number.new.high ≡ max 32768 (number.old.high - by) }
{
    number.trim_end();
    lower(number, by);
}

// Multiplies a number by ten so often, where no digit shown would be above the highest place.
pub(crate) fn raise(number: &mut UnsignedDecimal, by: u32)
    requires { number.old.high + by < 65536 }
    ensures { IsRaised by number.old number.new }
{
    let _number = number.magnitude_range(); // for the proof
    number.multiply_pow10(shift_up(by as u16));
}

// The highest place that is shown.
pub(crate) fn high_place(number: &UnsignedDecimal) -> u32
    ensures value { result ≡ number.now.high }
    ensures top { result < 65536 }
{
    place_of(*number.magnitude_range().end())
}

// The place of the first digit that is not zero, or of the ones.
fn first_digit(number: &UnsignedDecimal) -> u32
    ensures zero { number.now.count ≡ 0 → result ≡ 32768 }
    ensures value { 0 < number.now.count → IsFirstPlace number.now.count result }
{
    place_of(number.nonzero_magnitude_start())
}

// The same, by powers of ten.
pub(crate) fn first_place(number: &UnsignedDecimal) -> u32
    ensures zero { number.now.count ≡ 0 → result ≡ 32768 }
    ensures holds { number.now.count < 10 ^ (result + 1) }
    ensures reaches { 0 < number.now.count → 10 ^ result ≤ number.now.count }
{
    let _number = number.magnitude_range(); // for the proof
    first_digit(number)
}

// The place of the last digit that is not zero, or of the ones.
fn last_place(number: &UnsignedDecimal) -> u32
    ensures { 0 < number.now.count → IsLastPlace number.now.count result }
{
    place_of(number.nonzero_magnitude_end())
}

// Whether no digit of a number is below a place.
#[tactic(auto, using(crate::proofs::PlaceLemmas::none_below, crate::proofs::PlaceLemmas::some_below))]
pub(crate) fn is_whole_at(number: &UnsignedDecimal, place: u32) -> bool
    ensures whole { IsTrue result → number.now.count % 10 ^ place ≡ 0 }
    ensures part { IsFalse result → ¬ (number.now.count % 10 ^ place ≡ 0) }
{
    if number.is_zero() {
        return true;
    }
    place <= last_place(number)
}
