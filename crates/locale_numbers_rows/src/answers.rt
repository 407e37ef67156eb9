//! Books, and lines under a book.

use crate::books::book_named;
use locale_numbers::{Book, BookError, answer};
use rows::{Stop, escaped, put, put_text, unescaped};
use std::alloc::Global;

/// The bytes of the book that a field names, with parents after its five arrays or without, or says.
pub fn book_bytes(alloc: Global, field: &str) -> Result<Vec<u8>, Stop> {
    let (name, parents) = field.split_once(" + ").unwrap_or((field, ""));
    match book_named(name) {
        None => unescaped(alloc, field),
        Some(text) if parents.is_empty() => Ok(Vec::from_slice(alloc, text.as_bytes())?),
        Some(text) => {
            let arrays = text.strip_suffix(']').unwrap_or(text);
            Ok(format!(in alloc; "{arrays},{parents}]")?.into_bytes())
        }
    }
}

/// The book that a field names, or says.
pub fn book_of(alloc: Global, field: &str) -> Result<Book, Stop> {
    let bytes = book_bytes(alloc, field)?;
    let read = Book::from_json(alloc, bytes.as_slice());
    drop(bytes);
    match read {
        Ok(book) => Ok(book),
        Err(BookError::Memory) => Err(Stop::Memory),
        Err(_) => Err(Stop::Unknown),
    }
}

/// Writes the answer of a book to a line.
pub fn put_answer(book: &Book, line: &[u8], out: &mut String) -> Result<(), Stop> {
    let answer = answer(*out.allocator(), book, line)?;
    let put = escaped(out, answer.as_slice());
    drop(answer);
    put
}

// Whether bytes are a book.
fn tried(alloc: Global, bytes: &[u8]) -> Result<(), BookError> {
    match Book::from_json(alloc, bytes) {
        Ok(book) => {
            drop(book);
            Ok(())
        }
        Err(refusal) => Err(refusal),
    }
}

/// Writes `ok` where bytes are a book, or the word of the refusal.
pub fn put_verdict(bytes: &[u8], out: &mut String) -> Result<(), Stop> {
    match tried(*out.allocator(), bytes) {
        Ok(()) => put_text(out, "ok"),
        Err(refusal) => put(out, &refusal),
    }
}

/// Writes how many beginnings of bytes, the whole left out, are no JSON, of how many.
pub fn put_beginnings(bytes: &[u8], out: &mut String) -> Result<(), Stop> {
    let mut count: usize = 0;
    for length in 0..bytes.len() {
        match tried(*out.allocator(), &bytes[..length]) {
            Err(BookError::Json) => count = count.saturating_add(1),
            Err(BookError::Memory) => return Err(Stop::Memory),
            _ => {}
        }
    }
    write!(out, "json {count} of {}", bytes.len())?;
    Ok(())
}
