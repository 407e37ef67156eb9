//! The sign that the digits of a text are shown with.

ghost use Rattle.std.specs.Prelude.{◌≡◌, ◌==◌};
ghost use Rattle.fixed_decimal.specs.SignChoice.{chosen_sign, with_plus, without_plus};
ghost use Rattle.icu_decimal_direct.specs.TextDigits.{number_spelled};

use crate::leading_zeros::zeros_ahead;
use crate::text_digits::TextDigits;
use fixed_decimal::{Sign, SignDisplay};

// The sign of a number, with a plus where it has none.
fn with_plus(sign: Sign) -> Sign
    ensures { result ≡ with_plus sign }
{
    match sign {
        Sign::Negative => Sign::Negative,
        Sign::None | Sign::Positive => Sign::Positive,
    }
}

// The sign of a number, without a plus.
fn without_plus(sign: Sign) -> Sign
    ensures { result ≡ without_plus sign }
{
    match sign {
        Sign::Negative => Sign::Negative,
        Sign::None | Sign::Positive => Sign::None,
    }
}

impl<'t> TextDigits<'t> {
    // Whether each digit is a zero.
    fn are_zeros(&self) -> bool
        ensures { result ≡ ((number_spelled self.now).absolute.count == 0) }
    {
        zeros_ahead(self.integer) == self.integer.len()
            && zeros_ahead(self.fraction) == self.fraction.len()
    }

    // The sign that a choice shows.
    fn sign_for(&self, display: SignDisplay) -> Sign
        ensures { result ≡ chosen_sign display (number_spelled self.now).sign
            ((number_spelled self.now).absolute.count == 0) }
    {
        match display {
            SignDisplay::Auto => without_plus(self.sign),
            SignDisplay::Never => Sign::None,
            SignDisplay::Always => with_plus(self.sign),
            SignDisplay::ExceptZero => {
                if self.are_zeros() {
                    Sign::None
                } else {
                    with_plus(self.sign)
                }
            }
            SignDisplay::Negative => {
                if self.are_zeros() {
                    Sign::None
                } else {
                    without_plus(self.sign)
                }
            }
        }
    }

    /// The same digits with the sign that a choice shows: with `Always` those of `5` are those of `+5`, and with
    /// `ExceptZero` those of `-0` are those of `0`. It does not allocate.
    pub fn with_sign_display(&self, display: SignDisplay) -> TextDigits<'t>
        ensures { number_spelled result ≡ record {
          sign = chosen_sign display (number_spelled self.now).sign ((number_spelled self.now).absolute.count == 0);
          absolute = (number_spelled self.now).absolute;
        } }
    {
        TextDigits {
            sign: self.sign_for(display),
            integer: self.integer,
            fraction: self.fraction,
        }
    }
}
