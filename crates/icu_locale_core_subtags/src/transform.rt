//! The subtags of the extension `t`.

pub use crate::rules::transform_key::{Key, KeyRule};
