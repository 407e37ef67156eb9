//! Steps of a reader, for readers that fold what they read.

pub use crate::reader::{are_apart, are_clear};
pub use crate::sign_affixes::SignAffixes;
