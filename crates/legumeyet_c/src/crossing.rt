//! A handle may be used in another thread than the one that opened it.

use crate::handles::{AnswersHandle, BookHandle, FormatterHandle};
use crate::shared_handles::SharedFormatterHandle;

// Asks for no more than that.
fn crosses<T: Send>(_value: &T) {}

/// A book may, and so may a formatter and answers: what was opened in a thread is closed in another.
pub fn handles_cross(book: &BookHandle, formatter: &FormatterHandle, answers: &AnswersHandle) {
    crosses(book);
    crosses(formatter);
    crosses(answers)
}

// Asks for no more than that.
fn is_shared<T: Send + Sync>(_value: &T) {}

/// A shared formatter may be used in any number of threads at once.
pub fn shared_handles_cross(formatter: &SharedFormatterHandle) {
    is_shared(formatter)
}
