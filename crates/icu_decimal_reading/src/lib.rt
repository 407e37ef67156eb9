//! Plain texts read back: the decimal that is written so.
//!
//! In English `-1,234.50` is read as -1234.50, shown down to magnitude -2, and `98,7654` as nothing, since no decimal
//! is written so. The rules are in docs/reading.md.
//!
//! ```rust
//! use icu_decimal_reading::{is_readable, read_plain};
//!
//! if is_readable(&tables) {
//!     let number = read_plain(alloc, &tables, "-1,234.50")?;          // -1234.50
//! }
//! ```
#![tactic(auto)]

pub mod digits;
mod error;
mod gathered;
pub mod laws;
mod likely;
mod likely_bytes;
mod likely_characters;
mod reading;
mod scanning;
mod symbols;

pub use error::ReadError;
pub use reading::{read_plain, read_readable};
pub use symbols::{are_tables, is_readable};
