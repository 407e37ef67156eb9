//! What people type of percents and amounts of money, read.
//!
//! In English with `€` the texts `€1234.5`, `1,234.5`, `5 €`, `-€5` and `EUR 5` are read, and `€1,23` and `$5` are not:
//! nothing is dropped or guessed. The rules are in docs/units.md.
//!
//! ```rust
//! use icu_dimension_lenient::LenientUnitReader;
//!
//! let reader = LenientUnitReader::try_new(alloc, &tables, "EUR")?;    // once a form field
//! let amount = reader.read(alloc, "5 EUR")?;                          // 5
//! ```
#![tactic(auto)]

mod agreement;
mod beside;
mod ends;
pub mod laws;
mod native;
mod own;
mod pairs;
mod reader;

pub use agreement::{add_reading, found_reading};
pub use reader::LenientUnitReader;
