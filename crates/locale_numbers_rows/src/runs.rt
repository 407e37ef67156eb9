//! Runs: how they end, what a reader gave, what a writer holds.
ghost use Rattle.std.specs.Prelude.{◌≡◌, false};

use crate::book_run::{BookRun, put_alike};
use crate::narrow::Narrow;
use crate::pieces::Pieces;
use crate::sides::{Left, Sides};
use locale_numbers::{Book, ByteReader, ByteWriter, Report, RunError, Tracked, run};
use rows::{Stop, escaped, number_of, put_debug, put_text};
use std::cell::Cell;
use std::num::NonZeroUsize;

/// What runs between a reader and a writer.
pub trait Runs {
    /// Runs, and writes how that ended after the text.
    fn run(
        &self,
        reader: &mut Pieces<'_>,
        writer: &mut Narrow<'_>,
        out: &mut String,
    ) -> Result<(), Stop>
        requires reader { reader.old.failed ≡ false }
        requires writer { writer.old.failed ≡ false };
}

/// Writes how a run ended: its counts, or the refusal.
pub fn put_outcome(outcome: Result<Report, RunError>, out: &mut String) -> Result<(), Stop> {
    match outcome {
        Ok(report) => {
            write!(out, "ok, lines {}, made {}", report.lines, report.made)?;
            Ok(())
        }
        Err(refusal) => put_debug(out, &refusal),
    }
}

// Writes what a writer holds, in quotes.
fn put_quoted(held: &[u8], out: &mut String) -> Result<(), Stop> {
    put_text(out, ", \"")?;
    escaped(out, held)?;
    put_text(out, "\"")
}

// Writes how often a writer was flushed, and which sides have failed.
fn put_sides(reader: &Pieces<'_>, writer: &Narrow<'_>, out: &mut String) -> Result<(), Stop> {
    let failed = match (reader.has_failed(), writer.has_failed()) {
        (false, false) => "none",
        (true, false) => "reader",
        (false, true) => "writer",
        (true, true) => "both",
    };
    write!(out, ", flushed {}, failed {failed}", writer.flushes)?;
    Ok(())
}

// Writes what a run left.
fn put_after(
    left: Left,
    reader: &Pieces<'_>,
    writer: &Narrow<'_>,
    out: &mut String,
) -> Result<(), Stop> {
    match left {
        Left::Sides => put_sides(reader, writer, out)?,
        Left::Held => {}
        Left::Notes => return put_text(out, reader.notes.as_str()),
    }
    put_quoted(writer.taken.as_slice(), out)
}

/// Runs between two sides, and writes how that ended and what it left.
pub fn put_left<T: Runs>(runs: &T, sides: Sides<'_>, out: &mut String) -> Result<(), Stop> {
    let alloc = *out.allocator();
    let written = Cell::new(0);
    let watches = matches!(sides.left, Left::Notes);
    let mut reader = Pieces::new(alloc, sides.input, sides.giving, &written, watches);
    let mut writer = Narrow::new(alloc, sides.taking, &written);
    let ran = runs.run(&mut reader, &mut writer, out);
    let put = put_after(sides.left, &reader, &writer, out);
    drop(writer);
    drop(reader);
    ran?;
    put
}

// Writes how a run ended and what its writer holds; or how many lines it answered, and whether its writer holds the
// bytes that are wanted.
fn put_held(
    outcome: Result<Report, RunError>,
    held: &[u8],
    wanted: Option<&[u8]>,
    out: &mut String,
) -> Result<(), Stop> {
    let Some(wanted) = wanted else {
        put_outcome(outcome, out)?;
        return put_quoted(held, out);
    };
    let Ok(report) = outcome else {
        return Err(Stop::Unknown);
    };
    write!(out, "lines {}, written {}", report.lines, held == wanted)?;
    Ok(())
}

/// Runs between a slice and a `Vec`, and writes what that left, or whether it is what is wanted.
pub fn put_tracked(
    book: &Book,
    capacity: NonZeroUsize,
    input: &[u8],
    wanted: Option<&[u8]>,
    out: &mut String,
) -> Result<(), Stop> {
    let alloc = *out.allocator();
    let mut reader = Tracked::new(input);
    let mut writer = Tracked::new(Vec::new(alloc));
    let outcome = run(alloc, book, capacity.get(), &mut reader, &mut writer);
    let held = writer.into_inner();
    let put = put_held(outcome, held.as_slice(), wanted, out);
    drop(held);
    put
}

/// The answer of a call that runs over a book.
pub fn answer(
    book: &Book,
    call: &str,
    passed: &[&str],
    input: &[u8],
    out: &mut String,
) -> Result<(), Stop> {
    let Some((capacity, passed)) = passed.split_first() else {
        return Err(Stop::Unknown);
    };
    let capacity = number_of(capacity)?;
    let run = BookRun {
        book,
        capacity,
        counts: call == "run_loads",
    };
    match passed {
        [reader, writer, _] if call == "run" => {
            put_left(&run, Sides::of(reader, writer, input, Left::Sides)?, out)
        }
        [piece, _] if call == "run_watched" => {
            put_left(&run, Sides::of(piece, "1000000", input, Left::Notes)?, out)
        }
        [_] if call == "run_cuts" => {
            let sides = Sides::of("1000", "1000", input, Left::Sides)?;
            put_alike(&run, sides, input.len(), out)
        }
        [_] if call == "run_loads" => {
            let sides = Sides::of("1000000", "1000000", input, Left::Held)?;
            put_alike(&run, sides, 4, out)
        }
        [_] if call == "run_tracked" => put_tracked(book, capacity, input, None, out),
        _ => Err(Stop::Unknown),
    }
}
