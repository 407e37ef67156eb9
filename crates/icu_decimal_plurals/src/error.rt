//! Why a condition is not read.

/// Why a condition is not read.
#[derive(Clone, Copy, Debug, PartialEq, Eq)]
pub enum ConditionError {
    /// The text is no condition.
    Syntax,
    /// Out of memory.
    Memory,
}
