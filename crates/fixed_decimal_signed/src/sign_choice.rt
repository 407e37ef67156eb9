//! The sign that a choice shows, of a number that may be zero.

ghost use Rattle.std.specs.Prelude.{◌≡◌, ◌==◌};
ghost use Rattle.fixed_decimal_signed.specs.SignChoice.{chosen_sign, with_plus, without_plus};

use crate::decimal::Decimal;
use crate::sign::{Sign, SignDisplay};
use crate::signed::Signed;
use fixed_decimal_unsigned::UnsignedDecimal;

// A plus where there was no sign.
fn plus_added(sign: Sign) -> Sign
    ensures { result ≡ with_plus sign }
{
    match sign {
        Sign::None => Sign::Positive,
        _ => sign,
    }
}

// No sign where there was a plus.
fn plus_dropped(sign: Sign) -> Sign
    ensures { result ≡ without_plus sign }
{
    match sign {
        Sign::Positive => Sign::None,
        _ => sign,
    }
}

// The sign that is shown.
fn shown_sign(display: SignDisplay, sign: Sign, is_zero: bool) -> Sign
    ensures { result ≡ chosen_sign display sign is_zero }
{
    match display {
        SignDisplay::Auto => plus_dropped(sign),
        SignDisplay::Never => Sign::None,
        SignDisplay::Always => plus_added(sign),
        SignDisplay::ExceptZero => {
            if is_zero {
                Sign::None
            } else {
                plus_added(sign)
            }
        }
        SignDisplay::Negative => {
            if is_zero {
                Sign::None
            } else {
                plus_dropped(sign)
            }
        }
    }
}

impl Signed<UnsignedDecimal> {
    /// Sets the sign that the choice shows: with `Always`, `1729` becomes `+1729`. It does not allocate.
    pub fn apply_sign_display(&mut self, sign_display: SignDisplay)
        ensures { self.new
            ≡ record {
              sign = chosen_sign sign_display self.old.sign (self.old.absolute.count == 0);
              absolute =
                  self.old.absolute;
            } }
    {
        self.sign = shown_sign(sign_display, self.sign, self.absolute.is_zero());
    }

    /// The number with the sign that the choice shows: with `Always`, `1729` gives `+1729`. It does not allocate.
    pub fn with_sign_display(mut self, sign_display: SignDisplay) -> Decimal
        ensures { result
            ≡ record
            { sign = chosen_sign sign_display self.sign (self.absolute.count == 0); absolute = self.absolute } }
    {
        self.apply_sign_display(sign_display);
        self
    }
}
