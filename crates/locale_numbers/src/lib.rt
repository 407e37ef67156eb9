//! Numbers as the readers of a locale write them, asked for by request lines.
//!
//! A request line is six fields between tabs: tag, form, grouping, sign, rounding, text. Here the
//! answer is `ok`, a tab and `-987,654.321`:
//!
//! ```
//! let book = Book::from_json(alloc, SAMPLE_BOOK.as_bytes())?;
//! let text = answer(alloc, &book, b"en\tplain\tauto\tkeep\t-\t-987654.321")?;
//! ```
//!
//! [`run`] answers all lines of a reader onto a writer, and [`program`] does so for the words that a
//! program was started with.

#![tactic(auto)]

mod answering;
mod answers;
mod cached_formatters;
mod category_line;
mod changed_line;
mod exact_line;
mod fault;
mod formatter_key;
mod formatters;
mod front;
mod kept_formatter;
pub mod laws;
mod lenient_line;
mod line_answerer;
mod number_line;
mod one_formatter;
pub mod prelude;
mod program_run;
mod range_line;
mod read_line;
mod running;
mod starting;
mod without_units;
mod words;
mod world;

pub use answering::answer;
pub use answers::Answers;
pub use fault::ProgramFault;
pub use locale_numbers_book::{
    Book, BookError, BookTexts, FormatterError, MoreTexts, NumberTexts, SAMPLE_BOOK,
    SAMPLE_UNITS_BOOK, Tables, UnitTexts, book_text_for, put_book,
};
pub use locale_numbers_formats::{
    CompactWidth, CurrencyUnit, Notation, NumberFormat, NumberOptions, NumberShape, NumberUnit,
    Rounding, ScientificStyle, SignAsked,
};
pub use locale_numbers_lines::{
    ByteReadFault, ByteReader, ByteWriteFault, ByteWriter, Report, RunError, Tracked,
};
pub use locale_numbers_requests::{Request, Task};
pub use locale_numbers_world::{WORLD_LOCALES, world_tags};
pub use program_run::program;
pub use running::run;
pub use starting::start;
pub use without_units::{NumberTables, WithoutUnits};
pub use words::{Words, read_words};
pub use world::{world_text, world_texts};
