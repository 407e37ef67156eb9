//! The subtags of the extension `u`, and the suffix of a subdivision.

pub use crate::rules::attribute::{Attribute, AttributeRule};
pub use crate::rules::subdivision_suffix::{SubdivisionSuffix, SubdivisionSuffixRule};
pub use crate::rules::unicode_key::{Key, KeyRule};
