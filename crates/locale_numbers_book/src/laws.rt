//! Laws of the definitions, each the contract of a function that does nothing.

ghost use Rattle.locale_numbers_book.specs.Laws.{TagsAreRead, DataLocalesAreRead, KeysAreOneWhereEqual, TablesAreMade, IsOneBook, AloneStays, PairsStay, TriplesStay, BookTablesAreSound, BookTablesAreTexts, FoundPercentsAreTexts, FoundAmountsAreTexts, BookChainsEnd, SampleBookIsKnown, SampleUnitsBookIsKnown};
ghost use Rattle.locale_numbers_book.specs.FoundLocale.{SymbolsAreOfFoundLocales};

pub use locale_numbers_parents::laws::cycles_are_met;

/// The function by which a line is answered reads as a tag exactly what means one in the grammar, and as that meaning:
/// `EN-u-NU-Wxyz` as the language `en` with the system `wxyz`, and `en-` as none.
pub fn tags_are_read()
    ensures { TagsAreRead }
{}

/// The function by which an entry is read takes as a locale exactly the data locales of the grammar, and as that one:
/// `ca-ES-VALENCIA-u-sd-ESVC`, but not `en-u-nu-thai`.
pub fn data_locales_are_read()
    ensures { DataLocalesAreRead }
{}

/// Two keys of symbols are one exactly where they are equal: locales are compared as values. Those of `en` and `EN` are
/// one, and those of `en` with `thai` and of `en` without a system are two.
pub fn keys_are_one_where_equal()
    ensures { KeysAreOneWhereEqual }
{}

/// The function by which patterns are read makes exactly the tables of `CompactPatterns::new`: of `K` at the types 3
/// and 6 only that of type 3.
pub fn tables_are_made()
    ensures { TablesAreMade }
{}

/// A JSON value is one book at most: `[[],[],[],[],[]]` is only the book without tables and without parents.
pub fn is_one_book()
    ensures { IsOneBook }
{}

/// A book of five arrays or six, a pair of one and of units, and a triple of these and of plurals are what they were
/// before books had units, plurals and signs. A value that is no array of two items or of three has the fault of five
/// arrays or six, and as a book their tables, no units, no plurals and no signs; one of two items has the fault of both,
/// and their tables and units; one of three, of which the third has no third array or an empty one, has the fault of the
/// three, and their tables, units and plurals. So `[[],[],[],[],[]]` is the book without tables, and seven arrays are none.
pub fn old_books_stay()
    ensures alone { AloneStays }
    ensures pairs { PairsStay }
    ensures triples { TriplesStay }
{}

/// The types of each table of patterns of a book rise strictly, each exponent fits its type, and both fit into bytes:
/// in `SAMPLE_BOOK` the types 3 and 6 of `en`.
pub fn tables_are_sound()
    ensures { BookTablesAreSound }
{}

/// Symbols and digits that are in a book are six texts and ten characters, as the laws of reading back ask for: in
/// `SAMPLE_BOOK` under `en` and `latn` `-`, `+`, `.`, `,` and `0` to `9`.
pub fn tables_are_texts()
    ensures { BookTablesAreTexts }
{}

/// What percents and amounts of a book are written with is made of texts, as the laws of reading back ask for: each
/// affix, with its sign and its unit, is UTF-8. In `SAMPLE_UNITS_BOOK` under `en` with `EUR` `-€` and the empty text are
/// those of a minus sign. The code of a currency is three letters `A` to `Z`.
pub fn units_are_texts()
    ensures percents { FoundPercentsAreTexts }
    ensures amounts { FoundAmountsAreTexts }
{}

/// What plain numbers are written with has the symbols of an entry of the locale that is found, which is one of the chain: in
/// `SAMPLE_UNITS_BOOK` with `de-AT` those of `de`.
pub fn symbols_are_of_found_locales()
    ensures { SymbolsAreOfFoundLocales }
{}

/// The bound on the steps from a locale to its parents cuts no chain of a book: `en-AU`, `en-001`, `en` under
/// `[[],[],[],[],[],[["en-AU","en-001"]]]`.
pub fn chains_end()
    ensures { BookChainsEnd }
{}

/// The sample book is a book with these tables and no others: the symbols of `en` and of `ar-EG`, the digits of `latn`,
/// `arab` and `thai`, the English plural rules and the English patterns, short and long.
pub fn sample_book_is_known()
    ensures { SampleBookIsKnown }
{}

/// The sample book with units is a book with these tables, these units and no others: symbols, percents and amounts of
/// `de`, `de-CH`, `en`, `he` and `tr`, and the digits of CHF, JPY and KWD.
pub fn sample_units_book_is_known()
    ensures { SampleUnitsBookIsKnown }
{}
