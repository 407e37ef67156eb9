//! The digits of a number as they are kept, two to a byte: the inner crate of `fixed_decimal_unsigned`.
//!
//! `Digits` holds them from the highest to the lowest one that is not zero. They are made of a text or of a whole
//! number, put after others, cut, rounded, and shown one by one or in blocks. Digits in words, in bytes and in texts
//! are those of `fixed_decimal_digit_words`; all else of a number is in the crates above.

#![tactic(auto)]

mod comparing;
mod concatenation;
mod cutting;
mod digit_bytes;
mod digit_changes;
mod digit_chunks;
mod digit_fronts;
mod digit_run;
mod digit_text;
mod digits;
mod integers;
mod modes;
mod places;
mod rounding_digits;
mod rounding_pair;
mod rounding_place;
mod rounding_steps;
mod shown_digits;
mod turns;

pub use comparing::is_same_count;
pub use concatenation::{push_after, push_zeros, zeros_between};
pub use cutting::cut_above;
pub use digit_text::assign_texts;
pub use digits::{BLOCK, Digits};
pub use fixed_decimal_digit_words::{
    CutWord, WORD_DIGITS, cut_word, digit_of, digits_in_words, strip_zeros, word_behind,
    word_of_number,
};
pub use integers::{WORD_LIMIT, push_number};
pub use modes::{RoundingIncrement, UnsignedRoundingMode};
pub use places::ONES;
pub use rounding_pair::round_digits;
pub use rounding_steps::digit_at_place;
pub use shown_digits::{ShownDigits, digits_at};
pub use turns::Turns;
