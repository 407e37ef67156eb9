//! The units of a book: what the entries of its five arrays say, each under its key, and what is wrong with the first
//! faulty one.
//!
//! The array `[["CHF",2,1,2,5]]` is the table of the digits of one currency; with a second entry for `CHF` it is refused
//! as `Duplicate`.

#![tactic(auto)]

mod amounts;
mod array;
mod currency_digits;
mod currency_symbols;
mod fields;
pub mod laws;
mod own_symbols;
mod patterns;
mod percents;
mod tables;
mod units;

pub use amounts::{Accounts, Currencies};
pub use array::UnitArray;
pub use currency_digits::CurrencyDigits;
pub use currency_symbols::CurrencySymbols;
pub use locale_numbers_tables::BookError;
pub use patterns::{pattern_at, pattern_or_null_at};
pub use percents::Percents;
pub use tables::table_of;
pub use units::{UnitArrays, Units};
