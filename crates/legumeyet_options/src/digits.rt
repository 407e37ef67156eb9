//! The digits that the options ask for.

ghost use Rattle.std.specs.Prelude.{◌≡◌, ◌∷◌, option_map};
ghost use Rattle.locale_numbers_formats.specs.Cutting.{cut_at};
ghost use Rattle.locale_numbers_requests.specs.RoundingField.{comma, position_named};
ghost use Rattle.legumeyet_options.specs.Digits.{at_least, between, chooses_digits, counts_said, digits_by, digits_said, exactly, fraction_said, is_coarse, options_by, round_by, round_in, round_said, rounded_at, rounded_options, shows_digits, words_of};

use crate::fault::OptionFault;
use crate::significant::with_significant;
use fixed_decimal::{RoundingIncrement, SignedRoundingMode, UnsignedRoundingMode};
use locale_numbers_formats::{LeadingZeros, NumberOptions, Rounding, SignAsked, TrailingZeros};
use locale_numbers_requests::{
    Increment, count_named, cut_field, increment_named, last_named, mode_named, multiples_at,
    position_named,
};

// A rounding, the zeros at the end and the digits of the fraction at least; a zero that a rounding above the ones leaves is
// one zero.
pub(crate) fn options_by(rounding: Rounding, zeros: TrailingZeros, least: i16) -> NumberOptions
    ensures { result ≡ options_by rounding zeros least }
{
    NumberOptions {
        rounding,
        leading_zeros: LeadingZeros::TrimRoundedZero,
        zeros,
        integer_digits: 0,
        fraction_digits: least,
        sign: SignAsked::Keep,
    }
}

// At a position, half to even.
fn rounded_at(position: i16) -> Rounding
    ensures { result ≡ rounded_at position }
{
    Rounding::At(
        position,
        SignedRoundingMode::Unsigned(UnsignedRoundingMode::HalfEven),
        RoundingIncrement::MultiplesOf1,
    )
}

// An increment of one.
const ONE: Increment = Increment {
    digits: RoundingIncrement::MultiplesOf1,
    zeros: 0,
};

// A rounding by three words: of a position, a mode and an increment, with the digits down to the position.
fn round_by(
    position: &[u8],
    mode: Option<SignedRoundingMode>,
    increment: Option<Increment>,
) -> Option<NumberOptions>
    ensures { result ≡ round_by (position_named position.now) mode increment }
{
    let position = position_named(position)?;
    let mode = mode?;
    let increment = increment?;
    let multiples = multiples_at(position, increment)?;
    let rounding = Rounding::At(multiples.position, mode, multiples.increment);
    Some(options_by(rounding, TrailingZeros::Keep, multiples.fraction_digits))
}

// A rounding by a position, and what follows it.
fn round_behind(position: &[u8], rest: &[u8]) -> Option<NumberOptions>
    ensures { result ≡ round_in (position.now ∷ cut_at comma rest.now) }
{
    match cut_field(rest, b',') {
        (mode, None) => round_by(position, mode_named(mode), Some(ONE)),
        (mode, Some(rest)) => match cut_field(rest, b',') {
            (increment, None) => round_by(position, mode_named(mode), increment_named(increment)),
            (_, Some(_)) => None,
        },
    }
}

// The rounding that a word of `--round` says: without a mode half to even, without an increment to multiples of one.
fn round_said(word: &[u8]) -> Option<NumberOptions>
    ensures { result ≡ round_said word.now }
{
    match cut_field(word, b',') {
        (position, None) => round_by(
            position,
            Some(SignedRoundingMode::Unsigned(UnsignedRoundingMode::HalfEven)),
            Some(ONE),
        ),
        (position, Some(rest)) => round_behind(position, rest),
    }
}

/// Whether a word of `--round` is a position above the ones alone, as `2`, which rounds to hundreds. It does not allocate.
pub fn is_coarse(word: &[u8]) -> bool
    ensures { result ≡ is_coarse word.now }
{
    match position_named(word) {
        None => false,
        Some(position) => 0 < position,
    }
}

// The options of a rounding.
fn rounded_options(options: Option<NumberOptions>) -> Result<NumberOptions, OptionFault>
    ensures { result ≡ rounded_options options }
{
    match options {
        None => Err(OptionFault::Round),
        Some(options) => Ok(options),
    }
}

// So many digits of a fraction, down to the last one.
fn exactly(last: Option<i16>) -> Result<NumberOptions, OptionFault>
    ensures { result ≡ exactly last }
{
    match last {
        None => Err(OptionFault::Digits),
        Some(last) => Ok(options_by(rounded_at(last), TrailingZeros::Keep, 0)),
    }
}

// So many digits of a fraction at least, and as many as are given.
fn at_least(least: Option<i16>) -> Result<NumberOptions, OptionFault>
    ensures { result ≡ at_least least }
{
    match least {
        None => Err(OptionFault::MinDigits),
        Some(least) => Ok(options_by(Rounding::AsGiven, TrailingZeros::Trim, least)),
    }
}

// Digits of a fraction down to the last one, and so many at least.
fn between(last: Option<i16>, least: Option<i16>) -> Result<NumberOptions, OptionFault>
    ensures { result ≡ between last least }
{
    let Some(last) = last else {
        return Err(OptionFault::MaxDigits);
    };
    let Some(least) = least else {
        return Err(OptionFault::MinDigits);
    };
    if least as i32 <= -(last as i32) {
        Ok(options_by(rounded_at(last), TrailingZeros::Trim, least))
    } else {
        Err(OptionFault::Counts)
    }
}

// What `--max-digits` and `--min-digits` say.
fn counts_said(most: Option<&str>, least: Option<&str>) -> Result<NumberOptions, OptionFault>
    ensures { result ≡ counts_said (option_map (λ word. word.now) most.entry) (option_map (λ word. word.now) least.entry) }
{
    match (most, least) {
        (None, None) => Ok(options_by(Rounding::Usual, TrailingZeros::Keep, 0)),
        (None, Some(least)) => at_least(count_named(least.as_bytes())),
        (Some(most), None) => between(last_named(most.as_bytes()), Some(0)),
        (Some(most), Some(least)) => between(
            last_named(most.as_bytes()),
            count_named(least.as_bytes()),
        ),
    }
}

// What `--digits` says, or both of these.
fn fraction_said(
    digits: Option<&str>,
    most: Option<&str>,
    least: Option<&str>,
) -> Result<NumberOptions, OptionFault>
    ensures { result ≡ fraction_said (option_map (λ word. word.now) digits.entry)
        (option_map (λ word. word.now) most.entry) (option_map (λ word. word.now) least.entry) }
{
    match digits {
        Some(digits) => exactly(last_named(digits.as_bytes())),
        None => counts_said(most, least),
    }
}

// What `--round` says, or what the other options do.
fn digits_by(
    round: Option<&str>,
    digits: Result<NumberOptions, OptionFault>,
) -> Result<NumberOptions, OptionFault>
    ensures { result ≡ digits_by (option_map (λ word. word.now) round.entry) digits }
{
    match round {
        Some(round) => rounded_options(round_said(round.as_bytes())),
        None => digits,
    }
}

/// The words of the options of digits; `None` and `false` where an option is not given.
#[derive(Clone, Copy, Debug)]
pub struct DigitWords<'a> {
    /// Whether `--cash` is given.
    pub is_in_cash: bool,
    /// That of `--round`: `-2,floor`.
    pub round: Option<&'a str>,
    /// That of `--digits`: `2`.
    pub digits: Option<&'a str>,
    /// That of `--max-digits`: `2`.
    pub max_digits: Option<&'a str>,
    /// That of `--min-digits`: `2`.
    pub min_digits: Option<&'a str>,
    /// That of `--significant`: `1-3`.
    pub significant: Option<&'a str>,
    /// That of `--priority`: `more`.
    pub priority: Option<&'a str>,
}

impl DigitWords<'_> {
    // What all options of digits say, where those of cash come first.
    pub(crate) fn said(&self) -> Result<NumberOptions, OptionFault>
        ensures { result ≡ digits_said (words_of self.now) }
    {
        if self.is_in_cash {
            return Ok(options_by(Rounding::Cash, TrailingZeros::Keep, 0));
        }
        let fraction = fraction_said(self.digits, self.max_digits, self.min_digits);
        let digits = with_significant(self.significant, self.priority, fraction);
        digits_by(self.round, digits)
    }

    // Whether digits are chosen.
    pub(crate) fn are_chosen(&self) -> bool
        ensures { result ≡ chooses_digits (words_of self.now) }
    {
        self.is_in_cash
            || self.round.is_some()
            || self.digits.is_some()
            || self.max_digits.is_some()
            || self.min_digits.is_some()
            || self.significant.is_some()
            || self.priority.is_some()
    }

    // Whether they are those of what is shown, and no rounding before that.
    pub(crate) fn are_shown(&self) -> bool
        ensures { result ≡ shows_digits (words_of self.now) }
    {
        self.are_chosen() && !(self.is_in_cash || self.round.is_some())
    }
}
