//! The words of a book: patterns and names of currencies, and units of measurement, by locale.
//!
//! Of the entries `["und",[["other",[""," ¤"]]]]` and `["en","USD",[["one","US dollar"],["other","US dollars"]]]` amounts
//! of dollars are named in English: `1 US dollar`, `5 US dollars`. An entry
//! `["en","long",[["kilometer",[["one",[""," kilometer"]],["other",[""," kilometers"]]],[""," per kilometer"]]]]` has a
//! unit. What numbers are written with are `PluralWords` of `icu_dimension_words`.

#![tactic(auto)]

mod by_category;
mod cuts;
mod entry;
mod error;
mod files;
mod filling;
mod found;
pub mod laws;
mod made;
mod names;
mod patterns;
mod plain;
pub mod slots;
mod tables;
mod texts;
mod unit_name;
mod unit_words;
mod units;
mod width;
mod words;

pub use by_category::ByCategory;
pub use error::WordsError;
pub use plain::is_plain;
pub use texts::{CurrencyName, TextPair, UnitText};
pub use unit_name::is_unit_name;
pub use unit_words::{UnitTable, UnitWords};
pub use width::UnitWidth;
pub use words::Words;
