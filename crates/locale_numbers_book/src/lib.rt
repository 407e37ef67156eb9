//! Books: tables of symbols, digits, plural rules, patterns, units, plurals and signs as a JSON text names them, which
//! formatters borrow.
//!
//! From `SAMPLE_BOOK` the preferences of `ar-EG-u-nu-thai` get the Arabic separators of the entry `ar-EG` and the
//! digits of the entry `thai`; those of `en` get `.`, `,` and the digits of `latn`, which its symbols name.

#![tactic(auto)]

mod book;
mod format_finding;
mod formatter_error;
mod found_locale;
mod json;
pub mod laws;
mod locales;
mod number_formatter;
mod plural_finding;
mod plural_providers;
mod plural_rules;
mod providers;
mod sample_book;
mod scientific_finding;
mod sign_providers;
mod tables;
mod tag_formatters;
mod tag_reader;
mod texts;
mod unit_formatters;
mod unit_providers;

pub use book::{Book, book_from};
pub use format_finding::{find_formatter, find_second};
pub use formatter_error::FormatterError;
pub use locale_numbers_tables::BookError;
pub use plural_finding::find_plural_rules;
pub use sample_book::{SAMPLE_BOOK, SAMPLE_UNITS_BOOK};
pub use tables::Tables;
pub use tag_reader::read_preferences;
pub use texts::{BookTexts, MoreTexts, NumberTexts, UnitTexts, book_text_for, put_book};
