//! The C API: books, formatters and answers in handles, and texts in bytes of the caller's. `include/legumeyet.h` says what
//! each call does. A handle that has something of another kind open is closed to a call: 2, and it stays as it was,
//! unless the call opens it.
//!
//! ```c
//! legumeyet_book_open(json, json_length, &book);
//! legumeyet_formatter_open(&book, (const uint8_t *)"en", 2, NULL, 0, NULL, 0, &english);
//! legumeyet_formatter_format(&english, (const uint8_t *)"-987654.321", 11, NULL, 0, out, sizeof out, &length);
//! ```

#![tactic(auto)]

pub mod answering;
mod asked_format;
mod asking;
pub mod book;
mod categories;
mod column_writing;
pub mod columns;
mod content;
pub mod crossing;
mod direct;
pub mod exact;
mod format_opening;
mod format_writer;
pub mod formatter;
mod formatting;
mod handle;
mod handles;
mod held_answers;
mod held_formatter;
mod held_plurals;
pub mod information;
pub mod keeping;
pub mod laws;
mod lent;
mod lent_formatter;
pub mod line_answers;
pub mod locales;
mod opening;
mod own_texts;
pub mod parts;
pub mod ranges;
pub mod reading;
pub mod shared_columns;
pub mod shared_formatter;
mod shared_handles;
pub mod shared_reading;
pub mod shared_telling;
pub mod shared_writing;
mod sharing;
pub mod skeletons;
mod small_books;
pub mod telling;
mod unboxed;
pub mod world_book;
pub mod world_opening;
pub mod writing;
