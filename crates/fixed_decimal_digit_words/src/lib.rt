//! Digits in words, in bytes and in texts: the inner crate of `fixed_decimal_digits`.
//!
//! A word holds up to sixteen digits, four bits each; a byte holds two, the higher one in the upper half. None of these
//! calls knows of a list of digits or of a place, and none allocates.

#![tactic(auto)]

mod byte_words;
mod digit_blocks;
mod digit_text;
mod digit_words;
mod integers;

pub use digit_blocks::{bytes_of_block, digits_between, digits_within, text_of_block};
pub use digit_text::{digit_of, digits_in_words};
pub use digit_words::{CutWord, WORD_DIGITS, cut_word, word_behind, word_of_number};
pub use integers::strip_zeros;
