//! What is wrong with the options of a call.

use locale_numbers_formats::SkeletonError;

/// Which option that says how numbers are written is wrong.
#[derive(Clone, Copy, Debug, PartialEq, Eq)]
pub enum OptionFault {
    /// `--form` names no form.
    Form,
    /// `--format` has no skeleton.
    Format(SkeletonError),
    /// `--currency` has no three capitals.
    Code,
    /// `--grouping` names no grouping.
    Grouping,
    /// `--sign` names no sign.
    Sign,
    /// `--round` says no rounding.
    Round,
    /// `--digits` says no number from 0 to 32767.
    Digits,
    /// `--max-digits` says none.
    MaxDigits,
    /// `--min-digits` says none.
    MinDigits,
    /// `--min-digits` is above `--max-digits`.
    Counts,
    /// `--significant` says no counts of digits.
    Significant,
    /// `--priority` names none, or is without `--significant`.
    Priority,
    /// Digits of a fraction beside `--significant`, without `--priority`.
    NoPriority,
    /// `--priority` without at most so many digits of a fraction.
    NoFraction,
    /// An exact form shows the digits that it is given.
    DigitsOfExact,
    /// A number that is read has the sign of its text.
    SignOfRead,
    /// It has the digits of its text.
    DigitsOfRead,
    /// `--round` rounds significands left of the point, without a mode.
    Coarse,
    /// What people type is not read in scientific notation.
    Scientific,
    /// `--plural` or `--ordinal` beside an exact form or a number that is read.
    Categories,
}
