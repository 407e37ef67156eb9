//! The world's book: `legumeyet_book_open_world`.

ghost use Rattle.std.specs.Prelude.{ℕ, List};
ghost use Rattle.legumeyet_c_values.specs.Putting.{Answers};
ghost use Rattle.legumeyet_c.specs.Kinds.{book_in};
ghost use Rattle.legumeyet_c.specs.Opening.{IsBookFault, IsOpening, SaysBook};
ghost use Rattle.legumeyet_c.specs.Views.{book_content};

use crate::handles::BookHandle;
use crate::opening::put_after;
use legumeyet_c_values::{CallError, status_of};
use locale_numbers::{BookError, world_text};
use locale_numbers_book::book_from;
use std::alloc::Global;

// Opens the book that a JSON text is, and drops the text before the tables are made.
fn open_text(alloc: Global, json: Vec<u8>, book: &mut BookHandle) -> i32
    ensures { Answers (IsOpening book_in (SaysBook json.items) (IsBookFault json.items) (book_content book.old)
        (book_content book.new)) result }
{
    match book_from(alloc, json) {
        Ok(found) => {
            let fault = CallError::Book(BookError::Memory);
            status_of(put_after(alloc, &mut book.handle, found, fault))
        }
        Err(error) => CallError::Book(error).number(),
    }
}

/// Opens the world's book, whose entries are in the library: the tables of all locales of CLDR. What the handle had open is
/// closed, where the call returns 0, and else the handle is as it was.
///
/// Returns 0; 1, out of memory.
#[unsafe(no_mangle)]
pub extern "C" fn legumeyet_book_open_world(alloc: Global, book: &mut BookHandle) -> i32
    ensures { (json : List ℕ) × Answers (IsOpening book_in (SaysBook json) (IsBookFault json) (book_content book.old)
        (book_content book.new)) result }
{
    match world_text(alloc) {
        Ok(text) => open_text(alloc, text.into_bytes(), book),
        Err(_) => CallError::Book(BookError::Memory).number(),
    }
}
