//! Laws of books with words. No call is made: each clause is the law.

ghost use Rattle.locale_numbers_word_book.specs.WordBookLaws.{BookAloneStays, NothingIsFound, RefusedAreNone, RootIsNotAsked};

/// A law: without files of words texts are the book alone, as by `Book::from_json`, with no words.
pub fn book_alone_stays()
    ensures { BookAloneStays }
{}

/// A law: texts that are a book with words are refused only as out of memory.
pub fn refused_are_none()
    ensures { RefusedAreNone }
{}

/// A law: of a language without a name pattern root's words are not asked for: there are none of a currency, and those of a
/// unit are what the locales of the language have.
pub fn root_is_not_asked()
    ensures { RootIsNotAsked }
{}

/// A law: where there are no words, nothing is found: never root's text.
pub fn nothing_is_found()
    ensures { NothingIsFound }
{}
