//! Answers to lines that come one by one, by formatters that are kept.

ghost use Rattle.std.specs.Prelude.{◌≡◌, ◌≤◌, ◌∷◌, ◌++◌, [], ℕ, List, IfOk, OnOk, OnErr, string_bytes};
ghost use Rattle.locale_numbers_lines.specs.Growth.{Grows};
ghost use Rattle.locale_numbers.specs.Answer.{answer_of};
ghost use Rattle.locale_numbers.specs.KeptAnswers.{keeping, keeps_after, makes_after};

use crate::cached_formatters::CachedFormatters;
use crate::kept_formatter::FormatterMaker;
use crate::line_answerer::LineAnswerer;
use fixed_decimal::Decimal;
use locale_numbers_book::Tables;
use locale_numbers_cache::{FormatterCache, ReadKeys};
use locale_numbers_lines::Answerer;
use std::alloc::{AllocError, Global};
use std::marker::Model;

/// What answers lines by a book, and keeps the formatters that it made: for a caller that has its lines one by one, where
/// [`run`](crate::run) wants a reader of them.
///
/// A clause sees the book, the keys of the formatters that are kept, how many there may be, and how many were made.
#[derive(Drop)]
pub struct Answers<'a, T: Tables> {
    tables: &'a T,
    answerer: LineAnswerer<'a, T>,
}

impl<'a, T: Tables> Model for Answers<'a, T> {
    ghost use Rattle.locale_numbers_cache.specs.Cached.{recent_of};
    ghost use Rattle.locale_numbers.specs.KeptAnswers.{IsAnswerer, Keeping, keeping};

    ghost Value = { Keeping };

    ghost view = { λ s. keeping (T.book s.tables.now) s.answerer.kept.formatters.capacity
        (recent_of s.answerer.kept.formatters) s.answerer.kept.formatters.made };

    // What answers has what it keeps by its own tables, which are those of the book.
    ghost invariant = { λ s. IsAnswerer (T.book s.tables.now) (T.book s.answerer.kept.maker.tables.now)
        s.answerer.kept.formatters s.answerer.read s.answerer.kept.is_held };
}

impl<'a, T: Tables> Answers<'a, T> {
    /// The answers of a book, which keep the `capacity` formatters that were used last, 1 at least.
    ///
    /// Allocates. `AllocError`: out of memory.
    pub fn new(alloc: Global, tables: &'a T, capacity: usize) -> Result<Answers<'a, T>, AllocError>
        requires room { 1 ≤ capacity }
        ensures { IfOk result (λ answers. answers ≡ keeping (T.book tables.now) capacity [] 0) }
    {
        let formatters = FormatterCache::new(alloc, capacity)?;
        let kept = CachedFormatters {
            maker: FormatterMaker { alloc, tables },
            formatters,
            is_held: false,
        };
        Ok(Answers {
            tables,
            answerer: LineAnswerer {
                alloc,
                kept,
                read: ReadKeys::new(alloc)?,
                value: Decimal::zero(alloc),
            },
        })
    }

    /// Writes the answer to a line, without a line feed, after what `out` holds: that of [`answer`](crate::answer). A
    /// formatter is made for it only where the one of its key is not kept, as in a [`run`](crate::run); it is then the one
    /// used last, and where there are too many the one used longest ago is dropped.
    ///
    /// Of the sample book `en`, `plain`, `auto`, `keep`, `-` and `1234.5` with tabs between give `ok`, a tab and
    /// `1,234.5`. Allocates where the formatter is not kept, and for the text. `AllocError`: out of memory; a part of the
    /// answer may then be written.
    pub fn answer_onto(&mut self, line: &[u8], out: &mut String) -> Result<(), AllocError>
        ensures text { OnOk result (string_bytes out.new ≡ string_bytes out.old ++ answer_of self.old.book line.now) }
        ensures made { OnOk result ((more : List (List ℕ)) →
            makes_after self.old (line.now ∷ more) ≡ makes_after self.new more) }
        ensures recent { OnOk result (self.new.recent ≡ keeps_after self.old (line.now ∷ [])) }
        ensures capacity { OnOk result (self.new.capacity ≡ self.old.capacity) }
        ensures same { self.new.book ≡ self.old.book }
        ensures err { OnErr result (Grows (string_bytes out.old) (string_bytes out.new)) }
    {
        self.answerer.answer_line(line, out)
    }

    /// How many formatters were made: 1 after two lines of `en` and `plain`, as a run of these reports. It does not
    /// allocate.
    pub fn made(&self) -> u64
        ensures { result ≡ makes_after self.now [] }
    {
        self.answerer.made()
    }
}
