//! Books: `legumeyet_book_open`, `legumeyet_book_close`.

ghost use Rattle.std.specs.Prelude.{◌≡◌, None, IsSome};
ghost use Rattle.legumeyet_c_values.specs.Putting.{Answers};
ghost use Rattle.legumeyet_c.specs.Kinds.{book_in};
ghost use Rattle.legumeyet_c.specs.Opening.{IsBookFault, IsClosing, IsOpening, SaysBook};
ghost use Rattle.legumeyet_c.specs.Views.{book_content, book_open};

use crate::handles::BookHandle;
use crate::opening::{close, put_after};
use legumeyet_c_values::{CallError, status_of};
use locale_numbers::{Book, BookError};
use std::alloc::Global;

/// Opens the book that a JSON text is: `[[],[],[],[],[]]` is the shortest. What the handle had open is closed, where
/// the call returns 0, and else the handle is as it was.
///
/// Returns 0; 101 to 111, the number of the first fault of the text and 100; 1, out of memory.
#[unsafe(no_mangle)]
pub extern "C" fn legumeyet_book_open(alloc: Global, json: &[u8], book: &mut BookHandle) -> i32
    ensures { Answers (IsOpening book_in (SaysBook json.now) (IsBookFault json.now) (book_content book.old)
        (book_content book.new)) result }
{
    match Book::from_json(alloc, json) {
        Ok(found) => {
            let fault = CallError::Book(BookError::Memory);
            status_of(put_after(alloc, &mut book.handle, found, fault))
        }
        Err(error) => CallError::Book(error).number(),
    }
}

/// Closes a book, and frees its memory. Its formatters stay as they are.
///
/// Returns 0; 2, where it was closed already.
#[unsafe(no_mangle)]
pub extern "C" fn legumeyet_book_close(alloc: Global, book: &mut BookHandle) -> i32
    ensures closed { book_open book.new ≡ None }
    ensures gone { IsSome (book_open book.old) → book_content book.new ≡ None }
    ensures same { book_open book.old ≡ None → book_content book.new ≡ book_content book.old }
    ensures told { Answers (IsClosing (book_open book.old)) result }
{
    status_of(close::<Book>(alloc, &mut book.handle))
}
