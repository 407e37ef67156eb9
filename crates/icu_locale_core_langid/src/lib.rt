//! Language identifiers, and tags of at most one variant and one keyword.
#![tactic(auto)]

mod comparing;
mod inner;
mod json;
mod language_identifier;
mod language_stage;
pub mod laws;
mod modes;
mod normalizing;
mod one_variant;
mod parser;
mod reading;
pub mod single;
mod spelling;
mod stepping;
mod writing;

pub use crate::json::json_of;
pub use crate::language_identifier::LanguageIdentifier;
pub use crate::language_stage::LanguageStage;
pub use crate::modes::ParserMode;
pub use crate::normalizing::text_or_input;
pub use crate::one_variant::{OneVariantParts, one_variant_step};
pub use crate::parser::{parse_language_identifier, parse_language_identifier_from_iter};
pub use crate::stepping::language_after;
pub use crate::writing::write_optional;
