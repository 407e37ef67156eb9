//! Request lines: what each asks, and the words by which lines are refused.
//!
//! A line is six fields between tabs: tag, form, grouping, sign, rounding, text. Nothing here knows of books or
//! locales: the tag and the text are bytes. The rules are in docs/requests.md.
//!
//! ```rust
//! use locale_numbers_requests::{Refusal, cut_last, read_request};
//!
//! let (front, text) = cut_last(b"en\tplain\tmin2\tkeep\t-\t1000", b'\t');   // the first five fields with the tab behind them, and `1000`
//! let request = read_request(front);                                       // Some: the tag `en`, `Task::Write`, and the format of plain numbers, with Min2
//! let word = Refusal::Shape.word();                                        // "shape"
//! ```

#![tactic(auto)]

mod digits;
mod form_field;
mod increments;
pub mod laws;
mod pieces;
mod range_text;
mod refusal;
mod request;
mod rounding_field;
mod sign_field;
mod significant_field;
mod unit_word;

pub use digits::{are_digits, capped_number};
pub use form_field::{Task, format_exact, format_read};
pub use increments::{Increment, Multiples, increment_named, multiples_at};
pub use locale_numbers_formats::{SignAsked, cut_field, cut_last};
pub use range_text::cut_range;
pub use refusal::Refusal;
pub use request::{Request, as_text, grouping_named, is_text, placed, read_request};
pub use rounding_field::{count_named, last_named, mode_named, position_named};
pub use sign_field::sign_named;
pub use significant_field::{priority_named, significant_by, significant_count, significant_in};
