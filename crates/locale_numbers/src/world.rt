//! The world's book.

use locale_numbers_book::{BookTexts, MoreTexts, NumberTexts, UnitTexts, put_book};
use locale_numbers_world::world_book;
use std::alloc::{AllocError, Global};

/// The entries of the world's book, a text for each array. It does not allocate.
pub fn world_texts() -> BookTexts<'static> {
    BookTexts {
        numbers: NumberTexts {
            symbols: world_book::symbols(),
            digits: world_book::digits(),
            rules: world_book::rules(),
            short: world_book::short(),
            long: world_book::long(),
            parents: world_book::parents(),
        },
        units: Some(UnitTexts {
            percents: world_book::percents(),
            currencies: world_book::currencies(),
            accounts: world_book::accounts(),
            symbols: world_book::currency_symbols(),
            digits: world_book::currency_digits(),
        }),
        more: Some(MoreTexts {
            ordinals: world_book::ordinals(),
            ranges: world_book::ranges(),
            signs: world_book::signs(),
        }),
    }
}

/// The text of the world's book, which `Book::from_json` reads: `books/world.json`, to the last line feed.
///
/// It has the symbols, digits, plural rules, short and long patterns and parents of the locales of CLDR 48, its units, the
/// tables of percents and of amounts of money, its ordinal rules and plural ranges, and its signs, under the Unicode License
/// v3 (`books/LICENSE-Unicode`). A locale without an entry finds those of its parents: `WORLD_LOCALES` has the names of all.
/// The constants of the crate have its entries, so it allocates its 229 KB once, and the lines of an array at a time, and
/// fails where it can't have them; a book does not keep them.
pub fn world_text(alloc: Global) -> Result<String, AllocError> {
    let mut text = String::with_capacity(alloc, world_book::LENGTH)?;
    match put_book(alloc, &mut text, &world_texts()) {
        Ok(()) => Ok(text),
        Err(refused) => Err(refused),
    }
}
