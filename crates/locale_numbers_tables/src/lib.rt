//! The tables of a book: what the entries of its arrays say, each under its key, and what is wrong with the first
//! faulty one.
//!
//! The array `[["latn","0123456789"]]` is the table of one system, `latn`, with its ten digits; with a second entry for
//! `latn` it is refused as `Duplicate`.

#![tactic(auto)]

mod compact;
mod entries;
mod entry;
pub mod fields;
mod rules;
mod seed;
mod table;
mod tables;
mod texts;

pub use entry::Entry;
pub use locale_numbers_faults::BookError;
pub use seed::Seed;
pub use table::{Table, add};
pub use tables::table_of;
