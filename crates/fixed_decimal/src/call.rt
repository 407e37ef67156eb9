//! What one step of a run does to a decimal, and why a run fails.

ghost use Rattle.std.specs.Prelude.{◌≡◌};

use fixed_decimal_signed::{RoundingIncrement, Sign, SignDisplay, SignedRoundingMode};
use thiserror::Error;

/// A call on a `Decimal` that changes it, with what is passed to it: by `PadStart(4)`, `12` becomes `0012`.
#[derive(Clone, Copy, Debug, Drop, PartialEq, Eq)]
pub enum Call {
    /// `multiply_pow10`, with the power of ten: by 2, `12` becomes `1200`.
    MultiplyPow10(i16),
    /// `trim_start`: `0012.30` becomes `12.30`.
    TrimStart,
    /// `trim_end`: `0012.30` becomes `0012.3`.
    TrimEnd,
    /// `trim_end_if_integer`: `12.00` becomes `12`, and `12.50` stays.
    TrimEndIfInteger,
    /// `pad_start`, with the position: at 4, `12` becomes `0012`.
    PadStart(i16),
    /// `pad_end`, with the position: at -2, `1` becomes `1.00`.
    PadEnd(i16),
    /// `set_max_position`, with the position: at 2, `1234.5` becomes `34.5`.
    SetMaxPosition(i16),
    /// `round_with_mode_and_increment`, with the position, the mode and the increment: at 0 by
    /// `Unsigned(HalfEven)` to `MultiplesOf25`, `37.5` becomes `50`.
    Round(i16, SignedRoundingMode, RoundingIncrement),
    /// `set_sign`, with the sign: by `Positive`, `5` becomes `+5`.
    SetSign(Sign),
    /// `apply_sign_display`, with the choice of sign: by `Always`, `1729` becomes `+1729`.
    ApplySignDisplay(SignDisplay),
}

/// Why a run of calls failed: `Parse` where the first text is `5.`.
#[derive(Clone, Copy, Debug, Drop, PartialEq, Eq, Error)]
pub enum CallsError {
    /// The first text spells no decimal, as `5.`, or one beyond the limits, as `1e32768`; nothing was written. Out of
    /// memory is `Memory`.
    #[error("The text was not read as a decimal")]
    Parse,
    /// The sink refused, as one with room for two bytes refuses `+12.34`; it has taken a beginning of the text.
    #[error("The sink refused")]
    Write,
    /// Out of memory: the seventeen digits of `12345678901234567` allocate, sixteen do not; nothing was written.
    #[error("Memory for the digits was refused")]
    Memory,
}

impl CallsError {
    ghost use Rattle.fixed_decimal.specs.RefusalNumbers.{calls_error_number};

    /// The number of the error: 1 of `Parse`, 2 of `Write`, 3 of `Memory`.
    pub fn number(&self) -> u8
        ensures { result ≡ calls_error_number self.now }
    {
        match self {
            CallsError::Parse => 1,
            CallsError::Write => 2,
            CallsError::Memory => 3,
        }
    }
}
