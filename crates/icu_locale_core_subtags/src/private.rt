//! The subtags of a private part.

pub use crate::rules::private_piece::{PieceRule, Subtag};
