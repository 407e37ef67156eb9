//! Starts of the program: its words, its book's file, its run.

use crate::answers::book_bytes;
use crate::narrow::Narrow;
use crate::pieces::Pieces;
use crate::runs::{Runs, put_left};
use crate::shelf::Shelf;
use crate::sides::{Left, Sides};
use locale_numbers::{Words, program, read_words};
use rows::{Stop, number_of, put, put_text};
use std::num::NonZeroUsize;
use std::rt::Files;

/// Writes the book and the capacity that words name, or the line of the fault.
pub fn put_words(words: &[&str], out: &mut String) -> Result<(), Stop> {
    match read_words(words) {
        Ok(words) => {
            let book = words.book.unwrap_or("none");
            write!(out, "book {book}, capacity {}", words.capacity)?;
            Ok(())
        }
        Err(fault) => put(out, &fault),
    }
}

// A start of the program over files, with the path of a book or none.
#[derive(Drop)]
struct Start<'f, F> {
    files: &'f F,
    book: Option<&'f str>,
    capacity: NonZeroUsize,
}

impl<F: Files> Runs for Start<'_, F> {
    fn run(
        &self,
        reader: &mut Pieces<'_>,
        writer: &mut Narrow<'_>,
        out: &mut String,
    ) -> Result<(), Stop> {
        let words = Words {
            book: self.book,
            capacity: self.capacity.get(),
        };
        match program(self.files, *out.allocator(), &words, reader, writer) {
            Ok(()) => put_text(out, "ok"),
            Err(fault) => put(out, &fault),
        }
    }
}

// Writes what the program leaves over files, started with these words: the path of a book, or `-` for none, and a
// capacity.
fn put_program<F: Files>(
    files: &F,
    words: [&str; 2],
    sides: Sides<'_>,
    out: &mut String,
) -> Result<(), Stop> {
    let [path, capacity] = words;
    let start = Start {
        files,
        book: if path == "-" { None } else { Some(path) },
        capacity: number_of(capacity)?,
    };
    put_left(&start, sides, out)
}

/// Writes what the program leaves. The kind says what is under every path: `nothing`, a `whole` file with this
/// text, one that is `broken` off after it, or what is there (`real`).
pub fn answer<F: Files>(
    files: &F,
    passed: &[&str],
    input: &[u8],
    out: &mut String,
) -> Result<(), Stop> {
    let [kind, text, path, capacity, reader, writer, _] = passed else {
        return Err(Stop::Unknown);
    };
    let sides = Sides::of(reader, writer, input, Left::Sides)?;
    if *kind == "real" {
        return put_program(files, [path, capacity], sides, out);
    }
    let text = book_bytes(*out.allocator(), text)?;
    let shelf = Shelf {
        kind,
        text: text.as_slice(),
    };
    let put = put_program(&shelf, [path, capacity], sides, out);
    drop(text);
    put
}
