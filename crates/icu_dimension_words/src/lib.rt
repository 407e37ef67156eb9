//! Numbers with words that go by their plural category, as units of measurement and names of currencies: `1 kilometer`,
//! `5 kilometers`, `1.00 US dollars`.
//!
//! Each category of a language has two texts that stand around the number, or a text in its place: in Arabic 1 meter is
//! `متر`. The text of a number is read back exactly, and what people type so, `5km`, leniently: with the words of any
//! category and of several widths, with blanks beside the number or none. In English with ` kilometers` and ` km` the texts
//! `5 mi` and `1,23 km` are not read: nothing is dropped or guessed. The rules are in docs/words.md.
//!
//! ```rust
//! use icu_dimension_words::{CategoryWords, PluralWords, WordKind, WordPair, WordTables};
//!
//! let one = WordPair::try_new(alloc, "", " kilometer")?;
//! let other = WordPair::try_new(alloc, "", " kilometers")?;
//! let words = PluralWords::new(other).with_one_value(Some(CategoryWords::Around(one)));
//! let tables = WordTables::new(formatter.tables(), &rules, &words, WordKind::Unit);
//! tables.format(&number).write_to(&mut sink)?;                            // 5 kilometers
//! let same = tables.read(alloc, "5 kilometers")?;                         // 5
//! let reader = LenientWordReader::try_new(alloc, &decimals, &rules, &words, WordKind::Unit)?;
//! let number = reader.with_words(alloc, &short)?.read(alloc, "5km")?;      // 5
//! ```
#![tactic(auto)]

mod folded_words;
pub mod laws;
pub mod lenient_laws;
mod lenient_reader;
mod native;
mod number_in_words;
pub mod parts;
mod plural_words;
mod readable;
mod reader;
mod sides;
mod tables;
mod typed;
mod word;

pub use lenient_reader::LenientWordReader;
pub use number_in_words::NumberInWords;
pub use plural_words::{CategoryWords, PluralWords, WordPair};
pub use tables::{WordTables, format_in_words, named_number};
pub use word::WordKind;
