//! A book as texts, an array of it each.

ghost use Rattle.std.specs.Prelude.{◌≡◌, ◌++◌, OnOk, string_bytes};
ghost use Rattle.locale_numbers_book.specs.BookText.{arrays_text, more_text, number_lines, option_more_lines, unit_lines, whole_text};

mod arrays;
mod chain;
mod entries;
mod small_book;

use crate::texts::arrays::put_arrays;
pub use small_book::book_text_for;
use std::alloc::{AllocError, Global};

/// The entries of a book's tables of numbers: a text for each array, in which each entry has a line and no comma after it, as
/// `["de","","latn","-","","+","",",",".",3,3,1]`.
#[derive(Clone, Copy)]
pub struct NumberTexts<'t> {
    /// Symbols, each under a locale and a system or none.
    pub symbols: &'t str,
    /// The digits of systems.
    pub digits: &'t str,
    /// The plural rules of locales.
    pub rules: &'t str,
    /// Short patterns, each under a locale and a system or none.
    pub short: &'t str,
    /// Long patterns, each under a locale and a system or none.
    pub long: &'t str,
    /// Locales and their parents.
    pub parents: &'t str,
}

/// The entries of a book's units: a text for each array, as [`NumberTexts`] has them.
#[derive(Clone, Copy)]
pub struct UnitTexts<'t> {
    /// Percents, each under a locale and a system or none.
    pub percents: &'t str,
    /// Amounts of money, each under a locale and a system, the code of a currency or neither.
    pub currencies: &'t str,
    /// Amounts of money as accounts have them, each under a locale and a system or none.
    pub accounts: &'t str,
    /// The symbols of currencies, each under a locale and a code.
    pub symbols: &'t str,
    /// How many digits the currencies have.
    pub digits: &'t str,
}

/// The entries of what a book has beside its tables of numbers and its units: a text for each array, as [`NumberTexts`] has
/// them.
#[derive(Clone, Copy)]
pub struct MoreTexts<'t> {
    /// The ordinal rules of locales.
    pub ordinals: &'t str,
    /// The categories of ranges of locales.
    pub ranges: &'t str,
    /// Signs, each under a locale and a system or none.
    pub signs: &'t str,
}

/// The entries of a book, of its units or none, and of more or none.
#[derive(Clone, Copy)]
pub struct BookTexts<'t> {
    /// Those of its tables of numbers.
    pub numbers: NumberTexts<'t>,
    /// Those of its units, where it has units.
    pub units: Option<UnitTexts<'t>>,
    /// Those of more, where it has some. They count where it has units.
    pub more: Option<MoreTexts<'t>>,
}

// Appends the arrays of the tables of numbers.
fn put_numbers(alloc: Global, out: &mut String, texts: &NumberTexts<'_>) -> Result<(), AllocError>
    ensures text { OnOk result (string_bytes out.new ≡ string_bytes out.old ++ arrays_text (number_lines texts.now)) }
{
    let NumberTexts {
        symbols,
        digits,
        rules,
        short,
        long,
        parents,
    } = *texts;
    put_arrays(alloc, out, &[symbols, digits, rules, short, long, parents])
}

// Appends the arrays of units.
fn put_units(alloc: Global, out: &mut String, texts: &UnitTexts<'_>) -> Result<(), AllocError>
    ensures text { OnOk result (string_bytes out.new ≡ string_bytes out.old ++ arrays_text (unit_lines texts.now)) }
{
    let UnitTexts {
        percents,
        currencies,
        accounts,
        symbols,
        digits,
    } = *texts;
    put_arrays(
        alloc,
        out,
        &[percents, currencies, accounts, symbols, digits],
    )
}

// Appends a comma and the arrays of more, where there are some.
fn put_more(alloc: Global, out: &mut String, texts: Option<MoreTexts<'_>>) -> Result<(), AllocError>
    ensures text { OnOk result (string_bytes out.new
        ≡ string_bytes out.old ++ more_text (option_more_lines texts.entry)) }
{
    let Some(texts) = texts else {
        return Ok(());
    };
    out.push_str(",")?;
    put_arrays(alloc, out, &[texts.ordinals, texts.ranges, texts.signs])
}

/// Appends the text of a book with all entries of these texts, which `Book::from_json` reads.
///
/// A line feed is at its end, and brackets of arrays have lines of their own, so that each other line is an entry. It
/// allocates. `AllocError`: out of memory; a part may then be there.
pub fn put_book(alloc: Global, out: &mut String, texts: &BookTexts<'_>) -> Result<(), AllocError>
    ensures text { OnOk result (string_bytes out.new ≡ string_bytes out.old ++ whole_text texts.now) }
{
    let Some(units) = texts.units else {
        put_numbers(alloc, out, &texts.numbers)?;
        return out.push_str("\n");
    };
    out.push_str("[")?;
    put_numbers(alloc, out, &texts.numbers)?;
    out.push_str(",")?;
    put_units(alloc, out, &units)?;
    put_more(alloc, out, texts.more)?;
    out.push_str("]\n")
}
