//! What a caller in C gives and is told, without a handle: formats and options by words, numbers by the types that C has
//! for them, errors by their numbers, texts and parts in memory of the caller's. `include/legumeyet.h` says what each
//! number means.
//!
//! ```rust
//! use legumeyet_c_values::{GivenNumber, number_options_by, put, status_of};
//!
//! let options = number_options_by(&[3, 9, -1])?;                  // the sign always, to the nearest tenth
//! GivenNumber::Text(b"9.75").assign_changed(alloc, &options, None, &mut value)?;      // 9.8, with the sign +
//! let status = status_of(put(&value, out, &mut length));          // 0; `out` begins with `+9.8`, and `length` is 4
//! ```

#![tactic(auto)]

mod call_error;
mod columns;
mod digit_words;
mod fact_texts;
mod fact_words;
mod facts;
mod intervals;
pub mod laws;
mod line_buffers;
mod numbers;
mod option_words;
mod parts;
mod putting;
mod shape_words;
mod usual_words;
mod words;

pub use call_error::{CallError, error_of, status_of};
pub use columns::{Column, NumberWriter, write_column};
pub use fact_words::{Fact, fact_by};
pub use facts::{Facts, put_fact};
pub use intervals::Interval;
pub use line_buffers::{AnswerLine, answer_lines};
pub use numbers::{GivenNumber, assign_text, change, compact_of_text};
pub use option_words::{number_options_by, usual_options};
pub use parts::put_parts;
pub use putting::{put, put_bytes};
pub use shape_words::{AskedShape, shape_by};
pub use usual_words::is_usual;
pub use words::are_zeros;
