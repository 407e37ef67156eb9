//! The sign of a number as it is written, and the choice of the sign that is shown.

/// The sign of a number as it is written: `Negative` of `-12.3`.
#[derive(Clone, Copy, Debug, Drop, PartialEq, Eq)]
pub enum Sign {
    /// No sign, as in `1729`.
    None,
    /// A minus, as in `-1729`.
    Negative,
    /// A plus, as in `+1729`.
    Positive,
}

/// Which sign a number is shown with: with `Always`, `5` becomes `+5`. The choices have their names from
/// ECMA-402's `signDisplay`.
#[derive(Clone, Copy, Debug, Drop, PartialEq, Eq, Hash)]
pub enum SignDisplay {
    /// A minus where the number has one; a plus is left out: `+5` becomes `5`, and `-5` and `-0` stay.
    Auto,
    /// No sign: `-5` becomes `5`.
    Never,
    /// A sign always: a plus where the number has none. `5` becomes `+5`, and `0` becomes `+0`.
    Always,
    /// No sign at zero, and else as `Always`: `-0.0` becomes `0.0`, and `5` becomes `+5`.
    ExceptZero,
    /// A minus on a number that is not zero, and else no sign: `-5` stays, and `-0` becomes `0`.
    Negative,
}
