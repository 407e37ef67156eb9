//! ASCII bytes by words of eight: the inner crate of `tinystr`.
//!
//! A word holds eight bytes, the first the lowest. A class, a case change and a length go over a
//! slice word by word; the last word is filled up with NULs. No call allocates.

#![tactic(auto)]

mod changes;
mod classes;
mod flags;
mod slices;
mod titles;
mod words;

pub use changes::{ToLowercase, ToUppercase, WordChange};
pub use classes::{
    Digits, Letters, LettersAndDigits, Lowercase, Uppercase, WordClass, is_all, is_none,
};
pub use slices::{all, are_same, change, none, put_at, text_len};
pub use titles::make_title;
pub use words::{short_word, word_len};
