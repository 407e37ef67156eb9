//! What is made of a number before it is written.

ghost use Rattle.std.specs.Prelude.{◌≡◌};
ghost use Rattle.locale_numbers_formats.specs.Changed.{unchanged};

use fixed_decimal::{RoundingIncrement, SignDisplay, SignedRoundingMode};

/// What a number is rounded to.
#[derive(Clone, Copy, Debug, Default, PartialEq, Eq, Hash)]
pub enum Rounding {
    /// An amount of money to the digits of its currency, and another number not: 1.234 dollars are `1.23`.
    #[default]
    Usual,
    /// An amount of money to the digits that its currency has in cash, and another number not: 2.344 Swiss francs are
    /// `2.35`.
    Cash,
    /// Nothing is rounded, an amount of money neither: 1.234 dollars are `1.234`.
    AsGiven,
    /// To multiples of an increment at a position, by a mode: 1.27 at -1 to multiples of 5, half to even, is `1.5`.
    At(i16, SignedRoundingMode, RoundingIncrement),
    /// To so many digits from the first one that is not zero on: 12345 to at most 3, half to even, is `12300`.
    Significant(SignificantDigits, SignedRoundingMode),
    /// To whichever of a position and so many digits shows more, or less: 12345.678 at -2 or to at most 3 is `12345.68`
    /// or `12300`.
    Either(RoundingPriority, i16, SignificantDigits, SignedRoundingMode),
}

/// How many digits are shown, from the first one that is not zero on. Those of zero count from the ones on.
#[derive(Clone, Copy, Debug, Default, PartialEq, Eq, Hash)]
pub struct SignificantDigits {
    /// At least so many, by zeros at the end of the fraction: by 3, 1.5 is `1.50`. By 0 so many fraction digits are shown
    /// at least as the options ask for.
    pub least: u16,
    /// At most so many, by a rounding: by 3, 1.2345 is `1.23`. Below 1 it counts as 1.
    pub most: u16,
}

/// Which of a position and so many digits a number is rounded to. After ECMA-402's `roundingPriority`.
#[derive(Clone, Copy, Debug, Default, PartialEq, Eq, Hash)]
pub enum RoundingPriority {
    /// The one that shows more digits.
    #[default]
    MorePrecision,
    /// The one that shows fewer digits.
    LessPrecision,
}

/// What becomes of the zeros in front, after the rounding.
#[derive(Clone, Copy, Debug, Default, PartialEq, Eq, Hash)]
pub enum LeadingZeros {
    /// They stay: `007`, and `000` of 400 rounded to thousands.
    #[default]
    Keep,
    /// Those of a zero that a rounding above the ones left are trimmed: `0` of 400 rounded to thousands, and `007`.
    TrimRoundedZero,
    /// They are trimmed: `7` of `007`, and `0` of 400 rounded to thousands.
    Trim,
}

/// What becomes of the zeros at the end of the fraction, after the rounding.
#[derive(Clone, Copy, Debug, Default, PartialEq, Eq, Hash)]
pub enum TrailingZeros {
    /// They stay: `1.50`.
    #[default]
    Keep,
    /// They are trimmed: `1.5` of `1.50`.
    Trim,
    /// They are trimmed where no other digit is among them, after the padding: `2` of `2.00`, and `1.50`.
    TrimWhole,
    /// They are trimmed, and after the padding again where no other digit is among them: by two fraction digits, `2` of
    /// 2, and `1.50`.
    TrimAll,
}

/// Which sign is written.
#[derive(Clone, Copy, Debug, Default, PartialEq, Eq, Hash)]
pub enum SignAsked {
    /// The one that was given: +5 is `+5`.
    #[default]
    Keep,
    /// The one that is chosen by the number: by `Auto` +5 is `5`.
    Show(SignDisplay),
}

/// What is made of a number before it is written: it is rounded, trimmed and padded, and then its sign is chosen by what
/// that left. By default an amount of money is rounded to the digits of its currency, and nothing else changes.
#[derive(Clone, Copy, Debug, Default, PartialEq, Eq, Hash)]
pub struct NumberOptions {
    /// What it is rounded to.
    pub rounding: Rounding,
    /// What becomes of the zeros in front.
    pub leading_zeros: LeadingZeros,
    /// What becomes of the zeros at the end of its fraction.
    pub zeros: TrailingZeros,
    /// How many integer digits are shown at least: by 3, 7 is `007`. Below 1 none is added.
    pub integer_digits: i16,
    /// How many fraction digits are shown at least: by 2, 7 is `7.00`. Below 1 none is added.
    pub fraction_digits: i16,
    /// Which sign is written.
    pub sign: SignAsked,
}

impl NumberOptions {
    /// The options that change nothing, an amount of money neither: 1.234 dollars stay 1.234, and +5 stays `+5`. It does
    /// not allocate.
    pub const fn unchanged() -> NumberOptions
        ensures { result ≡ unchanged }
    {
        NumberOptions {
            rounding: Rounding::AsGiven,
            leading_zeros: LeadingZeros::Keep,
            zeros: TrailingZeros::Keep,
            integer_digits: 0,
            fraction_digits: 0,
            sign: SignAsked::Keep,
        }
    }
}
