//! The letters of plural rules.

/// What a relation asks for, by its letter in UTS 35.
#[derive(Clone, Copy, Debug, PartialEq, Eq)]
pub enum Operand {
    /// The number, where it is whole.
    N,
    /// The integer digits.
    I,
    /// How many fraction digits are shown.
    V,
    /// How many fraction digits are shown up to the last one that is not zero.
    W,
    /// The fraction digits.
    F,
    /// The fraction digits up to the last one that is not zero.
    T,
    /// The exponent, whose letters are `c` and `e`.
    C,
}
