//! Answers to request lines: `legumeyet_book_answer`.

ghost use Rattle.std.specs.Prelude.{◌≡◌, Some, IfOk, IfErr};
ghost use Rattle.legumeyet_c_values.specs.Putting.{Answers, IsPut};
ghost use Rattle.legumeyet_c.specs.Answering.{IsAnswerFault, SaysAnswer};
ghost use Rattle.legumeyet_c.specs.Kinds.{book_in};
ghost use Rattle.legumeyet_c.specs.Opened.{opened};
ghost use Rattle.legumeyet_c.specs.Views.{book_content, book_open};

use crate::content::{Content, opened_book};
use crate::handles::BookHandle;
use legumeyet_c_values::{CallError, put_bytes, status_of};
use locale_numbers::Book;
use std::alloc::Global;

// The answer of a book.
fn answer_of(alloc: Global, book: &Book, line: &[u8]) -> Result<Vec<u8>, CallError>
    ensures value { IfOk result (λ text. SaysAnswer (Some book.now) line.now text.items) }
    ensures fault { IfErr result (λ error. IsAnswerFault (Some book.now) error) }
{
    match locale_numbers::answer(alloc, book, line) {
        Ok(text) => Ok(text),
        Err(_) => Err(CallError::Memory),
    }
}

// The same with what is open.
fn answer_opened(
    alloc: Global,
    content: Option<&Content>,
    line: &[u8],
) -> Result<Vec<u8>, CallError>
    ensures value { IfOk result (λ text. SaysAnswer (book_in (opened content.entry)) line.now text.items) }
    ensures fault { IfErr result (λ error. IsAnswerFault (book_in (opened content.entry)) error) }
{
    match opened_book(content) {
        Some(book) => answer_of(alloc, book, line),
        None => Err(CallError::Closed),
    }
}

/// Answers a request line, without its line feed: `en`, `plain`, `auto`, `keep`, `-`, `-987654.321` with tabs between
/// by `ok`, a tab and `-987,654.321`. A line that is refused is answered too, by `err`, a tab and a word.
///
/// Returns 0; 2, the book is closed; 1, out of memory; 3, the answer needs more room.
#[unsafe(no_mangle)]
pub extern "C" fn legumeyet_book_answer(
    alloc: Global,
    book: &mut BookHandle,
    line: &[u8],
    out: &mut [u8],
    length: &mut usize,
) -> i32
    ensures same { book_content book.new ≡ book_content book.old }
    ensures told { Answers
        (IsPut (SaysAnswer (book_open book.old) line.now) (IsAnswerFault (book_open book.old)) out.old out.new
        length.old length.new) result }
{
    match answer_opened(alloc, book.handle.content(), line) {
        Ok(text) => status_of(put_bytes(text.as_slice(), out, length)),
        Err(error) => error.number(),
    }
}
