//! Books kept for the rest of the run: `legumeyet_book_keep`.

ghost use Rattle.std.specs.Prelude.{◌≡◌, Some};
ghost use Rattle.legumeyet_c_values.specs.Putting.{Answers};
ghost use Rattle.legumeyet_c.specs.Kinds.{book_in};
ghost use Rattle.legumeyet_c.specs.Opening.{IsKeeping};
ghost use Rattle.legumeyet_c.specs.Views.{book_content, book_open};

use crate::content::{Content, ContentKind};
use crate::handle::Handle;
use crate::handles::BookHandle;
use legumeyet_c_values::{CallError, status_of};
use locale_numbers::Book;
use std::alloc::Global;

// The content with its book kept, and the content as it was where memory is refused or it has no book.
fn keep(alloc: Global, content: Box<Content>) -> (Box<Content>, Result<(), CallError>)
    ensures same { book_in (Some result.0.value) ≡ book_in (Some content.value) }
    ensures told { IsKeeping (Some content.value) (Some result.0.value) result.1 }
{
    match &*content {
        Content::Kept(_) => return (content, Ok(())),
        Content::Book(_) => (),
        Content::Formatter(_) | Content::Answers(_) | Content::Nothing => {
            return (content, Err(CallError::Closed));
        }
    }
    match Box::new(alloc, Content::Nothing) {
        Ok(mut block) => {
            let leaked: &'static Content = Box::leak(content);
            let Some(book) = Book::of_content(leaked) else {
                unreachable!()
            };
            drop(Box::replace(&mut block, Content::Kept(book)));
            (block, Ok(()))
        }
        Err(_) => (content, Err(CallError::Memory)),
    }
}

// Keeps the book of a handle.
fn keep_after(alloc: Global, book: &mut Handle) -> Result<(), CallError>
    ensures same { book_in book.new.pointer.value ≡ book_in book.old.pointer.value }
    ensures told { IsKeeping book.old.pointer.value book.new.pointer.value result }
{
    let Some(content) = book.take(alloc) else {
        return Err(CallError::Closed);
    };
    let (content, outcome) = keep(alloc, content);
    book.put(alloc, content);
    outcome
}

/// Keeps a book for the rest of the run: its memory is never given back, not even where the book is closed. A formatter
/// that is opened from it afterwards borrows its tables, and has no copy of its own.
///
/// Returns 0; 2, the book is closed; 1, out of memory, never of a book that is kept already.
#[unsafe(no_mangle)]
pub extern "C" fn legumeyet_book_keep(alloc: Global, book: &mut BookHandle) -> i32
    ensures same { book_open book.new ≡ book_open book.old }
    ensures told { Answers (IsKeeping (book_content book.old) (book_content book.new)) result }
{
    status_of(keep_after(alloc, &mut book.handle))
}
