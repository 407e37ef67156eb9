//! A book and its words, of texts.

ghost use Rattle.std.specs.Prelude.{◌≡◌, ◌↔◌, IfErr, IfOk, IsTrue, List, map};
ghost use Rattle.locale_numbers_book.specs.Refusal.{IsRefused};
ghost use Rattle.locale_numbers_word_book.specs.WordTexts.{AreRefused, AreTexts, Text};
ghost use Rattle.locale_numbers_book.specs.declared.BookError.{BookError};
ghost use Rattle.locale_numbers_words.specs.declared.error.WordsError.{WordsError};

use crate::error::{FileFault, TextsError};
use crate::word_book::WordBook;
use locale_numbers_book::{Book, BookError};
use locale_numbers_words::WordsError;
use std::alloc::Global;

// Whether a fault is out of memory.
fn is_memory(fault: FileFault) -> bool
    ensures { IsTrue result ↔ (fault ≡ FileFault.Words WordsError.Memory) }
{
    match fault {
        FileFault::Words(WordsError::Memory) => true,
        FileFault::Json | FileFault::Book | FileFault::Words(_) => false,
    }
}

// Why a text is refused that has not the form of a book: as words, where it says some.
fn error_of_form(alloc: Global, text: &[u8]) -> TextsError
    ensures { IsRefused text.now BookError.Shape → (files : List Text) → AreRefused text.now files result }
{
    match WordBook::from_json(alloc, text) {
        Ok(_words) => TextsError::Words,
        Err(fault) => {
            if is_memory(fault) {
                TextsError::Book(BookError::Memory)
            } else {
                TextsError::Book(BookError::Shape)
            }
        }
    }
}

// Why a text is refused, of which this is wrong as a book.
fn error_of(alloc: Global, text: &[u8], fault: BookError) -> TextsError
    ensures { IsRefused text.now fault → (files : List Text) → AreRefused text.now files result }
{
    match fault {
        BookError::Shape => error_of_form(alloc, text),
        _ => TextsError::Book(fault),
    }
}

/// The book of a text, as by `Book::from_json`, and the words of files, as by [`WordBook::from_texts`]: without files it is
/// the book alone, with no words. Of a book and the file of German words amounts of `EUR` are named in German.
///
/// The book's text counts first, with the number 0, and then the files, the first of which has the number 1. It allocates.
/// The definition is in docs/words.md.
///
/// - Words: the first text is no book by its shape, and is a file of words, as `[[],[],[]]`.
/// - Book: else, where the first text is no book, its fault.
/// - File: else the first file that is refused, and its fault. A book among the files is `FileFault::Book`.
pub fn from_texts(
    alloc: Global,
    book: &[u8],
    files: &[&[u8]],
) -> Result<(Book, WordBook), TextsError>
    ensures value { IfOk result (λ both. AreTexts book.now (map (λ text. text.now) files.now) both.0 both.1) }
    ensures refused { IfErr result (AreRefused book.now (map (λ text. text.now) files.now)) }
{
    let text = book;
    let book = match Book::from_json(alloc, text) {
        Ok(book) => book,
        Err(fault) => return Err(error_of(alloc, text, fault)),
    };
    match WordBook::from_texts(alloc, files) {
        Ok(words) => Ok((book, words)),
        Err(error) => {
            drop(book);
            Err(TextsError::File(error))
        }
    }
}
