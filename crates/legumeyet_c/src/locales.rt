//! The locales of a book: `legumeyet_book_locale_count`, `_locale` and `_found_locale`.

ghost use Rattle.std.specs.Prelude.{◌≡◌, Ok, IfOk, IfErr};
ghost use Rattle.locale_numbers.specs.FoundLocale.{locale_for};
ghost use Rattle.legumeyet_c_values.specs.Putting.{Answers, IsPut};
ghost use Rattle.legumeyet_c.specs.Kinds.{book_in};
ghost use Rattle.legumeyet_c.specs.Locales.{IsCounting, IsFoundLocaleFault, IsLocaleFault, SaysFoundLocale, SaysLocale};
ghost use Rattle.legumeyet_c.specs.Opened.{opened};
ghost use Rattle.legumeyet_c.specs.Opening.{IsTagFault};
ghost use Rattle.legumeyet_c.specs.Views.{book_content, book_open};

use crate::content::{Content, opened_book};
use crate::handles::BookHandle;
use icu_locale_core::DataLocale;
use legumeyet_c_values::{CallError, put, status_of};
use locale_numbers::{Book, FormatterError};
use std::alloc::Global;

// Counts the locales of the book that is open.
fn count_opened(content: Option<&Content>, count: &mut usize) -> Result<(), CallError>
    ensures { IsCounting (book_in (opened content.entry)) count.old count.new result }
{
    let Some(book) = opened_book(content) else {
        return Err(CallError::Closed);
    };
    *count = book.locale_count();
    Ok(())
}

// Writes the tag of a locale of the book that is open.
fn write_locale(
    content: Option<&Content>,
    index: usize,
    out: &mut [u8],
    length: &mut usize,
) -> Result<(), CallError>
    ensures { IsPut (SaysLocale (book_in (opened content.entry)) index)
        (IsLocaleFault (book_in (opened content.entry)) index) out.old out.new length.old length.new result }
{
    let Some(book) = opened_book(content) else {
        return Err(CallError::Closed);
    };
    match book.locale(index) {
        Some(locale) => put(locale, out, length),
        None => Err(CallError::UnknownOption),
    }
}

// The locale that a book has symbols of for a tag. `Tag`: the text is no locale tag. `Table`: the book lacks them. `Memory`:
// out of memory.
fn find_locale<'b>(alloc: Global, book: &'b Book, tag: &[u8]) -> Result<&'b DataLocale, CallError>
    ensures value { IfOk result (λ locale. locale_for book.now tag.now ≡ Ok locale.now) }
    ensures fault { IfErr result (λ error. IsTagFault (locale_for book.now tag.now) tag.now error) }
{
    let Ok(tag) = str::from_utf8(tag) else {
        return Err(CallError::Tag);
    };
    match book.found_locale(alloc, tag) {
        Ok(locale) => Ok(locale),
        Err(FormatterError::Tag) => Err(CallError::Tag),
        Err(FormatterError::Table) => Err(CallError::Table),
        Err(FormatterError::Memory) => Err(CallError::Memory),
        Err(FormatterError::Code) => Err(CallError::Code),
    }
}

// Writes the tag of the locale that the book that is open has symbols of for a tag.
fn write_found(
    alloc: Global,
    content: Option<&Content>,
    tag: &[u8],
    out: &mut [u8],
    length: &mut usize,
) -> Result<(), CallError>
    ensures { IsPut (SaysFoundLocale (book_in (opened content.entry)) tag.now)
        (IsFoundLocaleFault (book_in (opened content.entry)) tag.now) out.old out.new length.old length.new result }
{
    let Some(book) = opened_book(content) else {
        return Err(CallError::Closed);
    };
    match find_locale(alloc, book, tag) {
        Ok(locale) => put(locale, out, length),
        Err(error) => Err(error),
    }
}

/// Counts the locales of a book: those that it has symbols of.
///
/// Returns 0; 2, the book is closed.
#[unsafe(no_mangle)]
pub extern "C" fn legumeyet_book_locale_count(book: &mut BookHandle, count: &mut usize) -> i32
    ensures same { book_content book.new ≡ book_content book.old }
    ensures told { Answers (IsCounting (book_open book.old) count.old count.new) result }
{
    status_of(count_opened(book.handle.content(), count))
}

/// Writes the tag of a locale of a book, by its place among them: `de-AT`. They are in the order of the book, each once.
///
/// Returns 0; 2, the book is closed; 4, the place is not below the count; 3, the text needs more room.
#[unsafe(no_mangle)]
pub extern "C" fn legumeyet_book_locale(
    book: &mut BookHandle,
    index: usize,
    out: &mut [u8],
    length: &mut usize,
) -> i32
    ensures same { book_content book.new ≡ book_content book.old }
    ensures told { Answers
        (IsPut (SaysLocale (book_open book.old) index) (IsLocaleFault (book_open book.old) index) out.old out.new
        length.old length.new) result }
{
    status_of(write_locale(book.handle.content(), index, out, length))
}

/// Writes the tag of the locale whose symbols numbers of a tag are written with: of the world's book `de` for `de-XX`, which
/// falls back to it, and `de-AT` for `de-AT`.
///
/// Returns 0; 2, the book is closed; 5, the text is no locale tag; 6, the book has no symbols for it; 1, out of memory, also
/// in place of the last two; 3, the text needs more room.
#[unsafe(no_mangle)]
pub extern "C" fn legumeyet_book_found_locale(
    alloc: Global,
    book: &mut BookHandle,
    tag: &[u8],
    out: &mut [u8],
    length: &mut usize,
) -> i32
    ensures same { book_content book.new ≡ book_content book.old }
    ensures told { Answers
        (IsPut (SaysFoundLocale (book_open book.old) tag.now) (IsFoundLocaleFault (book_open book.old) tag.now) out.old
        out.new length.old length.new) result }
{
    status_of(write_found(alloc, book.handle.content(), tag, out, length))
}
