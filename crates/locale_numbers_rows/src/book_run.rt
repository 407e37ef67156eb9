//! Runs over the tables of a book.

use crate::counting::Counting;
use crate::narrow::Narrow;
use crate::pieces::Pieces;
use crate::runs::{Runs, put_left, put_outcome};
use crate::sides::Sides;
use locale_numbers::{Book, run};
use rows::Stop;
use std::alloc::Global;
use std::cell::Cell;
use std::num::NonZeroUsize;

/// A run over the tables of a book, with a number of formatters kept, which counts or not how often it asks for digits
/// and for patterns.
#[derive(Clone, Copy)]
pub struct BookRun<'b> {
    pub book: &'b Book,
    pub capacity: NonZeroUsize,
    pub counts: bool,
}

impl Runs for BookRun<'_> {
    fn run(
        &self,
        reader: &mut Pieces<'_>,
        writer: &mut Narrow<'_>,
        out: &mut String,
    ) -> Result<(), Stop> {
        let digits_asked = Cell::new(0);
        let patterns_asked = Cell::new(0);
        let tables = Counting {
            book: self.book,
            digits_asked: &digits_asked,
            patterns_asked: &patterns_asked,
        };
        let outcome = run(
            *out.allocator(),
            &tables,
            self.capacity.get(),
            reader,
            writer,
        );
        put_outcome(outcome, out)?;
        if self.counts {
            write!(
                out,
                ", digits asked for {}, patterns for {}",
                digits_asked.get(),
                patterns_asked.get()
            )?;
        }
        Ok(())
    }
}

// Whether a run between these sides leaves this text too.
fn leaves(alloc: Global, run: &BookRun<'_>, sides: Sides<'_>, text: &str) -> Result<bool, Stop> {
    let mut other = String::new(alloc);
    let put = put_left(run, sides, &mut other);
    let is_same = other.as_str() == text;
    drop(other);
    put?;
    Ok(is_same)
}

/// Writes what a run leaves, and after it the first number of bytes below `end` where it leaves another text, if there
/// is one: its first read gives so many bytes, and, where it counts, each other read too.
pub fn put_alike(
    run: &BookRun<'_>,
    sides: Sides<'_>,
    end: usize,
    out: &mut String,
) -> Result<(), Stop> {
    put_left(run, sides, out)?;
    let mut cut = sides;
    for count in 1..end {
        cut.giving.at_first = count;
        if run.counts {
            cut.giving.at_once = count;
        }
        if !leaves(*out.allocator(), run, cut, out.as_str())? {
            write!(out, ", and another by {count}")?;
            return Ok(());
        }
    }
    Ok(())
}
