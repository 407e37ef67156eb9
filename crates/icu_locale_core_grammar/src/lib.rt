//! The grammar of locale tags: which texts are tags, what they mean, and where the others are at fault.
//!
//! A tag is the list of its pieces between hyphens, and the case of its letters is ignored. `en-Latn-US-u-nu-thai` is
//! the language `en`, the script `Latn`, the region `US` and a keyword `nu` with the value `thai`. The definitions are
//! in `specs/`, and docs/tags.md has them in words. This crate computes nothing: it has the error that every reader of
//! tags returns, and [`laws`], which hold of the definitions.
//!
//! ```rust
//! use icu_locale_core_grammar::ParseError;
//!
//! assert_eq!(rt; ParseError::InvalidSubtag.number(), 2);
//! ```
#![tactic(auto)]

mod error;
pub mod known_rows;
pub mod laws;
pub mod order_laws;
pub mod part_laws;
pub mod preference_laws;

pub use crate::error::ParseError;
