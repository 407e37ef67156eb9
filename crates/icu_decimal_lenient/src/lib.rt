//! What people type, read: a text that is, folded, one that a formatter writes, grouped wholly or not at all.
//!
//! In English `1234.5`, ` 1,234.5 `, `.5` and `−5` with U+2212 are read, and `1,23` is not: nothing is dropped or
//! guessed. The rules are in docs/reading.md.
//!
//! ```rust
//! use icu_decimal_lenient::LenientTables;
//!
//! let kept = LenientTables::new(alloc, &tables)?;                     // once a form field
//! let number = kept.read(alloc, " 1234.5 ")?;                         // 1234.5
//! ```
#![tactic(auto)]

mod filling;
mod folded;
mod folding;
mod kept;
pub mod laws;
mod lenient;
mod native;
mod readable;
mod second;
mod steps;
mod typed;

pub use kept::FoldedSymbols;
pub use lenient::{LenientTables, read_lenient};
pub use native::{arabic_symbols, has_arabic_digits, has_arabic_separator, native_text};
pub use readable::is_leniently_readable;
pub use second::{is_own_text, unless_other};
pub use typed::{
    MadeTablesReader, NativeReader, TableReader, read_arabic, read_in_native, read_typed,
    read_typed_or,
};
