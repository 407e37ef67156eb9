//! Tables in text, as CSV: records and fields cut as RFC 4180 has them, and chosen fields written anew, with all else as it
//! was.
//!
//! A [`FieldSayer`] says what is written for the texts of the fields that it chooses; [`put_rows`] reads records and writes
//! them:
//!
//! ```text
//! let dialect = Dialect { delimiter: b',', has_quotes: true };
//! let asked = TableAsked { dialect, on_refusal: OnRefusal::Keep, padding };
//! let is_refused = put_rows(alloc, &asked, &sayer, 1, &mut reader, &mut writer)?;
//! ```

#![tactic(auto)]

mod asked;
mod buffers;
mod cells;
mod dialect;
mod fault;
mod field_sayer;
mod field_writing;
mod fields;
pub mod laws;
mod padding;
mod reading;
mod row_writing;
mod rows;
mod table;
mod texts;
mod trimming;

pub use asked::{OnRefusal, TableAsked};
pub use buffers::Buffers;
pub use dialect::{Dialect, Place};
pub use fault::TableFault;
pub use field_sayer::{FieldFault, FieldSayer};
pub use fields::{body_of, split_field, without_mark};
pub use padding::Padding;
pub use reading::LONGEST;
pub use row_writing::{is_last, put_row};
pub use rows::{read_first_row, read_row};
pub use table::put_rows;
pub use texts::{is_in_quotes, unquoted};
pub use trimming::trimmed;
