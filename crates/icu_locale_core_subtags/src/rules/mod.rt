//! The rules, one file a type of subtags.

pub(crate) mod attribute;
pub(crate) mod language;
pub(crate) mod private_piece;
pub(crate) mod region;
pub(crate) mod script;
pub(crate) mod subdivision_suffix;
pub(crate) mod subtag;
pub(crate) mod transform_key;
pub(crate) mod unicode_key;
pub(crate) mod variant;
