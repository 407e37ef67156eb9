//! What is asked of a table.

use crate::dialect::Dialect;
use crate::padding::Padding;

/// What is written where a field is refused.
#[derive(Clone, Copy, Debug, PartialEq, Eq)]
pub enum OnRefusal {
    /// An empty field.
    Empty,
    /// The field as it is.
    Keep,
    /// Nothing of its record.
    Skip,
    /// Nothing of its record, and nothing after it.
    Abort,
}

/// What is asked of a table.
#[derive(Clone, Copy, Debug, PartialEq, Eq)]
pub struct TableAsked {
    /// How its fields are told apart.
    pub dialect: Dialect,
    /// What is written where one is refused.
    pub on_refusal: OnRefusal,
    /// How wide a field is.
    pub padding: Padding,
}
