//! A book of tables.

ghost use Rattle.std.specs.Prelude.{◌≡◌, true, IfOk, IsErrOf, IfErr, None, OnOk, option_map};
ghost use Rattle.serde_json.specs.Data.{Data};
ghost use Rattle.serde_json.specs.View.{view};
ghost use Rattle.locale_numbers_book.specs.Arrays.{ArePluralsIn, AreSignsIn, HasParts, fault_beside, fault_in, fault_of_parts, may_grow_beside, may_grow_in, may_grow_of_parts, more_fault_in, more_may_grow_in, units_fault_in, units_may_grow_in, value_of_arrays, value_of_units};
ghost use Rattle.locale_numbers_book.specs.Book.{HasTables, HasUnits, IsBook};
ghost use Rattle.locale_numbers_book.specs.Form.{book_fault};
ghost use Rattle.locale_numbers_book.specs.Json.{Reads};
ghost use Rattle.locale_numbers_book.specs.Refusal.{IsRefused};
ghost use Rattle.locale_numbers_book.specs.BookAllocation.{book_may_grow};
ghost use Rattle.locale_numbers_tables.specs.Telling.{IsTold};

use crate::json::{
    Arrays, BookArrays, More, MoreArrays, book_arrays_of, more_in, no_signs, parents_in, units_in,
    value_of,
};
use icu_decimal::plurals::PluralRules;
use icu_decimal::provider::{CompactPatterns, DataIdentifier, DecimalSymbols};
use icu_locale_core::DataLocale;
use locale_numbers_parents::Parents;
use locale_numbers_plurals::Plurals;
use locale_numbers_signs::NumberSigns;
use locale_numbers_tables::{BookError, Seed, Table, table_of};
use locale_numbers_units::{UnitArrays, Units};
use serde_json::Value;
use std::alloc::Global;
use std::marker::Model;
use tinystr::TinyAsciiStr;

/// Tables of symbols, of digits, of plural rules and of short and long patterns, the parents of locales, the units that
/// percents and amounts of money are written with, what it has of plurals beside its rules, and the signs of scientific
/// text, of about and of ranges, as a JSON text names them. `SAMPLE_BOOK` names the symbols of `en`, whose separators are
/// `.` and `,`, and no parents, no units, no more of plurals and no signs.
pub struct Book {
    pub(crate) symbols: Table<DataIdentifier, DecimalSymbols>,
    pub(crate) digits: Table<TinyAsciiStr<8>, [char; 10]>,
    pub(crate) rules: Table<DataLocale, PluralRules>,
    pub(crate) short: Table<DataIdentifier, CompactPatterns>,
    pub(crate) long: Table<DataIdentifier, CompactPatterns>,
    pub(crate) parents: Option<Parents>,
    pub(crate) units: Option<Units>,
    pub(crate) plurals: Option<Plurals>,
    pub(crate) signs: Table<DataIdentifier, NumberSigns>,
}

impl Model for Book {
    ghost use Rattle.locale_numbers_book.specs.Book.{BookTables};

    ghost Value = { BookTables };

    ghost view = { λ b. record {
      symbols = b.symbols.map.entries;
      digits = b.digits.map.entries;
      rules = b.rules.map.entries;
      short = b.short.map.entries;
      long = b.long.map.entries;
      parents = b.parents;
      units = b.units;
      plurals = b.plurals;
      signs = b.signs.map.entries;
    } };
}

// A book is dropped by one call, whose proof a user's exits cite: a derived drop would be opened table by table at each
// of them.
impl Drop for Book {
    fn drop(self) {
        let Book {
            symbols: _symbols,
            digits: _digits,
            rules: _rules,
            short: _short,
            long: _long,
            parents: _parents,
            units: _units,
            plurals: _plurals,
            signs: _signs,
        } = self;
    }
}

// The book of these arrays, its tables hashed by this seed, without units, plurals and signs.
#[tactic(auto, using(crate::proofs::BookLemmas::or_second, crate::proofs::BookLemmas::or_third, crate::proofs::BookLemmas::or_fourth, crate::proofs::BookLemmas::or_fifth, crate::proofs::BookLemmas::or_sixth))]
fn tables_of(alloc: Global, seed: Seed, arrays: Arrays) -> Result<Book, BookError>
    ensures value { IfOk result (HasTables (value_of_arrays arrays)) }
    ensures sound { OnOk result (fault_in arrays ≡ None) }
    ensures fault { IfErr result (λ fault. IsTold (fault_in arrays) fault) }
    ensures room { IsErrOf result BookError.Memory → may_grow_in arrays ≡ true }
{
    let Arrays {
        first,
        second,
        third,
        fourth,
        fifth,
        sixth,
    } = arrays;
    let symbols = table_of(alloc, seed, first)?;
    let digits = table_of(alloc, seed, second)?;
    let rules = table_of(alloc, seed, third)?;
    let short = table_of(alloc, seed, fourth)?;
    let long = table_of(alloc, seed, fifth)?;
    match parents_in(alloc, sixth) {
        Ok(parents) => Ok(Book {
            symbols,
            digits,
            rules,
            short,
            long,
            parents,
            units: None,
            plurals: None,
            signs: no_signs(alloc, seed),
        }),
        Err(fault) => Err(fault),
    }
}

// Gives a book the units of arrays that may be missing.
fn add_units(
    alloc: Global,
    seed: Seed,
    book: &mut Book,
    arrays: Option<UnitArrays>,
) -> Result<(), BookError>
    ensures units { OnOk result (HasUnits (option_map value_of_units arrays) book.new.units) }
    ensures same { OnOk result (book.new ≡ record book.old { units = book.new.units }) }
    ensures sound { OnOk result (units_fault_in arrays ≡ None) }
    ensures fault { IfErr result (λ fault. IsTold (units_fault_in arrays) fault) }
    ensures room { IsErrOf result BookError.Memory → units_may_grow_in arrays ≡ true }
{
    match units_in(alloc, seed, arrays) {
        Ok(units) => {
            book.units = units;
            Ok(())
        }
        Err(fault) => Err(fault),
    }
}

// Gives a book the plurals and the signs of arrays that may be missing.
fn add_more(
    alloc: Global,
    seed: Seed,
    book: &mut Book,
    arrays: Option<MoreArrays>,
) -> Result<(), BookError>
    ensures plurals { OnOk result (ArePluralsIn arrays book.new.plurals) }
    ensures signs { OnOk result (AreSignsIn arrays book.new.signs) }
    ensures same { OnOk result
        (book.new ≡ record book.old { plurals = book.new.plurals; signs = book.new.signs }) }
    ensures sound { OnOk result (more_fault_in arrays ≡ None) }
    ensures fault { IfErr result (λ fault. IsTold (more_fault_in arrays) fault) }
    ensures room { IsErrOf result BookError.Memory → more_may_grow_in arrays ≡ true }
{
    match more_in(alloc, seed, arrays) {
        Ok(More { plurals, signs }) => {
            book.plurals = plurals;
            book.signs = signs;
            Ok(())
        }
        Err(fault) => Err(fault),
    }
}

// Gives a book all of them: the faults of the units are told before those of the plurals and of the signs.
#[tactic(auto, using(crate::proofs::BookLemmas::or_beside))]
fn add_beside(
    alloc: Global,
    seed: Seed,
    book: &mut Book,
    units: Option<UnitArrays>,
    more: Option<MoreArrays>,
) -> Result<(), BookError>
    ensures units { OnOk result (HasUnits (option_map value_of_units units) book.new.units) }
    ensures plurals { OnOk result (ArePluralsIn more book.new.plurals) }
    ensures signs { OnOk result (AreSignsIn more book.new.signs) }
    ensures same { OnOk result
        (book.new
        ≡ record book.old { units = book.new.units; plurals = book.new.plurals; signs = book.new.signs }) }
    ensures sound { OnOk result (fault_beside units more ≡ None) }
    ensures fault { IfErr result (λ fault. IsTold (fault_beside units more) fault) }
    ensures room { IsErrOf result BookError.Memory → may_grow_beside units more ≡ true }
{
    match add_units(alloc, seed, book, units) {
        Ok(()) => match add_more(alloc, seed, book, more) {
            Ok(()) => Ok(()),
            Err(fault) => Err(fault),
        },
        Err(fault) => Err(fault),
    }
}

// The book of these arrays, these units, these plurals and these signs: the faults of the book are told before those of
// the others.
#[tactic(auto, using(crate::proofs::BookLemmas::or_beside))]
fn parts_of(alloc: Global, seed: Seed, arrays: BookArrays) -> Result<Book, BookError>
    ensures value { IfOk result (HasParts arrays) }
    ensures fault { IfErr result (λ fault. IsTold (fault_of_parts arrays) fault) }
    ensures room { IsErrOf result BookError.Memory → may_grow_of_parts arrays ≡ true }
{
    let BookArrays { book, units, more } = arrays;
    match tables_of(alloc, seed, book) {
        Ok(mut book) => match add_beside(alloc, seed, &mut book, units, more) {
            Ok(()) => Ok(book),
            Err(fault) => Err(fault),
        },
        Err(fault) => Err(fault),
    }
}

// The book that a JSON value is.
#[tactic(auto, using(crate::proofs::BookLemmas::made_whole, crate::proofs::BookLemmas::told_value, crate::proofs::BookLemmas::room_value))]
fn book_of(alloc: Global, seed: Seed, value: Value) -> Result<Book, BookError>
    ensures value { IfOk result (IsBook (view value)) }
    ensures fault { IfErr result (λ fault. IsTold (book_fault (view value)) fault) }

    // A value of another form is never reported as out of memory.
    ensures room { IsErrOf result BookError.Memory → book_may_grow (view value) ≡ true }
{
    match book_arrays_of(alloc, value) {
        Some(arrays) => match parts_of(alloc, seed, arrays) {
            Ok(book) => Ok(book),
            Err(fault) => Err(fault),
        },
        None => Err(BookError::Shape),
    }
}

impl Book {
    /// The book that a JSON text is.
    ///
    /// An array of five arrays: of symbols, each under a data locale and a system or none, of digits, of plural rules,
    /// and of short and long patterns; and of a sixth or none, of locales and their parents. `SAMPLE_BOOK` is one,
    /// `[[],[],[],[],[]]` the shortest. A book with units is a pair of such an array and of the five arrays of its
    /// units, as `SAMPLE_UNITS_BOOK`; the shortest is `[[[],[],[],[],[]],[[],[],[],[],[]]]`. A third item beside both is
    /// an array of two arrays, of ordinal rules and of the categories of ranges, of a third or none, of signs, and of up to
    /// five empty ones. It allocates. The form and the faults are defined in docs/books.md.
    ///
    /// - Json: the bytes have no reading as JSON, as `[1`.
    /// - Shape: the value is neither an array of five arrays or six, nor has two or three such items, as `[]`.
    /// - Shape to Cycle, Unit, Code: else the first faulty entry decides, those of the book before those of the units and
    ///   these before those of plurals and of signs, and in an entry the least number: Cycle of
    ///   `[[],[],[],[],[],[["en","en"]]]`, Code of `[[[],[],[],[],[]],[[],[],[],[],[["CH",2,1,2,5]]]]`.
    /// - Memory: out of memory.
    pub fn from_json(alloc: Global, bytes: &[u8]) -> Result<Book, BookError>
        ensures value { IfOk result (λ book. (value : Data) × Reads bytes.now value × IsBook value book) }
        ensures refused { IfErr result (λ fault. IsRefused bytes.now fault) }
    {
        match value_of(alloc, bytes) {
            Ok(value) => book_of(alloc, Seed::of_text(bytes), value),
            Err(fault) => Err(fault),
        }
    }
}

/// The book that a JSON text is, as by [`Book::from_json`]: the one without tables of `[[],[],[],[],[]]`, and `Json` of
/// `[1`. The text is dropped before the tables are made, so that the two are never in memory together.
pub fn book_from(alloc: Global, bytes: Vec<u8>) -> Result<Book, BookError>
    ensures value { IfOk result (λ book. (value : Data) × Reads bytes.items value × IsBook value book) }
    ensures refused { IfErr result (λ fault. IsRefused bytes.items fault) }
{
    let seed = Seed::of_text(&bytes);
    let read = value_of(alloc, &bytes);
    drop(bytes);
    book_of(alloc, seed, read?)
}
