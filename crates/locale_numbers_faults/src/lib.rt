//! Why a text is no book: each fault, with its number and its word.
//!
//! Of `[1`, which is no JSON, it is `BookError::Json`, number 1, in a word `json`.

#![tactic(auto)]

mod book_error;

pub use book_error::BookError;
