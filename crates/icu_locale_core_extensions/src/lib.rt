//! The extensions of a locale tag: `u` with attributes and keywords, `t` with a language part and fields, and any
//! other.
//!
//! `u-foo-nu-thai` is the attribute `foo` and the keyword `nu` with the value `thai`. The rules are in docs/tags.md,
//! "Extensions" and "Parts read alone".
//!
//! ```rust
//! use icu_locale_core_extensions::Unicode;
//!
//! let unicode = Unicode::try_from_str(alloc, "u-FOO-nu-thai")?;      // attribute foo, keyword nu with thai
//! ```
#![tactic(auto)]

mod block_writing;
mod body;
mod comparing;
mod extension_type;
mod extensions;
mod extensions_writing;
mod head;
mod headed_reading;
pub mod laws;
mod opening;
mod other;
mod other_writing;
mod retaining;
mod singleton;
mod transform;
mod transform_writing;
mod unicode;
mod unicode_writing;

pub use crate::body::{BodyStage, Part, body_after, body_finish, opened_body};
pub use crate::extension_type::ExtensionType;
pub use crate::extensions::{Extensions, put_part};
pub use crate::extensions_writing::write_extensions;
pub use crate::other::Other;
pub use crate::transform::Transform;
pub use crate::unicode::Unicode;
