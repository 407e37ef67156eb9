//! One attempt to read on.

use icu_locale_core_grammar::ParseError;

/// What comes of one more piece, or of the end: what is read now, or the fault there.
#[derive(Drop)]
pub enum Attempt<T> {
    /// It is read.
    Goes(T),
    /// It does not fit.
    Stops(ParseError),
}
