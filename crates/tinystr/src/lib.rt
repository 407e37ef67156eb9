//! Bounded ASCII texts, held in place: `TinyAsciiStr<N>` is one text of at most N bytes.
//!
//! `TinyAsciiStr::<4>::try_from_str("tEsT")` holds `tEsT`; its title case is `Test`. Only `to_json`
//! allocates. The names are those of ICU4X's `tinystr`.

#![tactic(auto)]

mod ascii;
mod asciibyte;
mod bytes;
mod case;
mod classes;
mod comparing;
mod decimal;
mod error;
mod faults;
mod int_ops;
mod joining;
mod json;
pub mod laws;
mod lossy;
mod readers;
mod ule;
mod unvalidated;
mod utf16;

pub use ascii::{TinyAsciiStr, TinyStr4, TinyStr8, TinyStr16};
pub use asciibyte::{AsciiByte, to_ascii_byte_array};
pub use error::{ParseError, UleError};
pub use int_ops::{Aligned, Aligned4, Aligned8};
pub use unvalidated::UnvalidatedTinyAsciiStr;
