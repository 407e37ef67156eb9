//! The tokens of a condition.

use crate::operand::Operand;

/// A word, a number or a sign of a condition.
#[derive(Clone, Copy, Debug, PartialEq, Eq)]
pub enum Token {
    /// `and`.
    And,
    /// `or`.
    Or,
    /// The letter of an operand.
    Name(Operand),
    /// A number of 1 to 18 digits.
    Whole(u64),
    /// `%`.
    Percent,
    /// `=`.
    Equals,
    /// `!=`.
    NotEquals,
    /// `,`.
    Comma,
    /// `..`.
    Dots,
}
