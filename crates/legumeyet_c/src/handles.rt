//! Handles of one kind of content each, as C has them. C may pass one for another, so a handle may have any content,
//! and is closed to the calls of another kind.

use crate::handle::Handle;

/// A book, or a closed handle: `legumeyet_book`.
#[repr(C)]
pub struct BookHandle {
    /// What is after it.
    pub handle: Handle,
}

/// A formatter of numbers in any format, or a closed handle: `legumeyet_formatter`.
#[repr(C)]
pub struct FormatterHandle {
    /// What is after it.
    pub handle: Handle,
}

/// Answers to request lines, or a closed handle: `legumeyet_answers`.
#[repr(C)]
pub struct AnswersHandle {
    /// What is after it.
    pub handle: Handle,
}
