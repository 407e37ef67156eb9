//! Words beside a book: names of currencies and units of measurement as files of words have them, and the formatters of
//! numbers with them that a book and its words have for a tag.
//!
//! Of a book with `en` and of the English file of words amounts of `USD` are written as `1.00 US dollars`, and kilometers as
//! `5 kilometers`, and both are read back. Words of a language may come after the book: they are lent beside it.

#![tactic(auto)]

mod error;
mod format_finding;
mod found_words;
pub mod laws;
mod locales;
mod tag_formatters;
mod tag_words;
mod texts;
mod value;
mod word_book;
mod word_formatter;

pub use error::{FileError, FileFault, TextsError, WordFormatterError};
pub use format_finding::{find_currency_formatter, find_unit_formatter};
pub use found_words::{find_currency_words, find_unit_words};
pub use icu_dimension_words::{
    LenientWordReader, NumberInWords, PluralWords, WordKind, WordTables,
};
pub use locale_numbers_words::{UnitWidth, WordsError};
pub use locales::word_locales;
pub use texts::from_texts;
pub use word_book::WordBook;
pub use word_formatter::WordFormatter;
