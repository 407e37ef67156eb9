//! Sets and lists of subtags: the variants and the attributes of a tag, and its private subtags.
//!
//! [`Variants`] and [`Attributes`] are sets, listed in byte order; [`Private`] is a list in the order written. The
//! rules are in docs/tags.md, "Sets and maps" and "Parts read alone".
//!
//! ```rust
//! use icu_locale_core_subtag_lists::Attributes;
//!
//! let attributes = Attributes::try_from_str(alloc, "foo-Bar-FOO")?;   // bar, foo
//! ```
#![tactic(auto)]

mod attributes;
mod growing_set;
pub mod laws;
mod printing;
mod private;
mod subtag_set;
mod variants;

pub use crate::attributes::Attributes;
pub use crate::growing_set::GrowingSet;
pub use crate::printing::{joined_length, pieces_length, write_joined, write_piece, write_pieces};
pub use crate::private::Private;
pub use crate::subtag_set::SubtagSet;
pub use crate::variants::Variants;
