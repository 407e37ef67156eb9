//! Whether options are those of no words.

ghost use Rattle.std.specs.Prelude.{◌≡◌};
ghost use Rattle.legumeyet_c_values.specs.UsualOptions.{is_usual, is_usual_rounding, trims_rounded_zero};

use locale_numbers_formats::{LeadingZeros, NumberOptions, Rounding, SignAsked, TrailingZeros};

// Whether a rounding is the usual one.
fn is_usual_rounding(rounding: Rounding) -> bool
    ensures { result ≡ is_usual_rounding rounding }
{
    matches!(rounding, Rounding::Usual)
}

// Whether the zeros in front are those of no words.
fn trims_rounded_zero(zeros: LeadingZeros) -> bool
    ensures { result ≡ trims_rounded_zero zeros }
{
    matches!(zeros, LeadingZeros::TrimRoundedZero)
}

/// Whether options are those of no words, `usual_options`.
pub fn is_usual(options: &NumberOptions) -> bool
    ensures { result ≡ is_usual options.now }
{
    is_usual_rounding(options.rounding)
        && trims_rounded_zero(options.leading_zeros)
        && matches!(options.zeros, TrailingZeros::Keep)
        && options.integer_digits == 0
        && options.fraction_digits == 0
        && matches!(options.sign, SignAsked::Keep)
}
