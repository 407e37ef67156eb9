//! The answers to request lines, once their formatters and numbers are there: what each says, and how it is written.
//!
//! Nothing here knows of books, tags or caches: a formatter is given, a number is read from its text and changed as the
//! request asks, and its answer goes after the answers that wait. The rules are in docs/requests.md.
//!
//! ```rust
//! use locale_numbers_answers::{read_number, write_number_answer, write_refusal};
//!
//! read_number(&mut value, b"-987654.321")?;                    // -987654.321, in place of the number that was there
//! options.change(formatter.fractions(), &mut value)?;          // rounded, and then with its sign
//! write_number_answer(&formatter, None, &mut value, &mut out)?; // behind what `out` holds: `ok`, a tab, `-987,654.321`
//! write_refusal(&mut out, Refusal::Table)?;                    // `err`, a tab, `table`
//! ```

#![tactic(auto)]

mod answer_line;
mod answer_sink;
mod category_answer;
mod compact_answer;
mod digit_change;
mod exact_answer;
pub mod laws;
mod number_answer;
mod read_answer;
mod scientific_answer;
mod unit_tables;

pub use answer_line::{write_refusal, write_refusal_or_shape};
pub use category_answer::{
    shown_category, shown_range_category, write_category_answer, write_range_category_answer,
};
pub use digit_change::DigitChange;
pub use exact_answer::{read_compact, write_exact_answer};
pub use number_answer::{
    read_number, write_changed_digits_answer, write_digits_answer, write_number_answer,
    write_unit_digits_answer,
};
pub use read_answer::{write_lenient_answer, write_read_answer};
pub use unit_tables::unit_text_tables;
