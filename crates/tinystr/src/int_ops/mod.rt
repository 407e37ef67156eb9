//! Texts of at most four and eight bytes, each in one word.

mod aligned;
mod making;

pub use aligned::{Aligned, Aligned4, Aligned8};
