//! The answerer of a run: it keeps formatters, and the fronts that were read, from line to line.

ghost use Rattle.std.specs.Prelude.{◌≡◌, ◌++◌, ◌∷◌, [], ℕ, List, Some, IsOk, IsTrue, OnErr, OnOk, map, string_bytes};
ghost use Rattle.locale_numbers_answers.specs.AnswerSink.{HasRoom};
ghost use Rattle.locale_numbers_cache.specs.Cached.{StillKept, kept_for, made_over, recent_of};
ghost use Rattle.locale_numbers_cache.specs.Recent.{has};
ghost use Rattle.locale_numbers_lines.specs.Growth.{Grows};
ghost use Rattle.locale_numbers_requests.specs.Request.{Asked, request_of};
ghost use Rattle.locale_numbers.specs.Answer.{answer_of};
ghost use Rattle.locale_numbers.specs.FormatterKeys.{finds, key_of};
ghost use Rattle.locale_numbers.specs.KeptAnswers.{keeping_in, keeps_after};
ghost use Rattle.locale_numbers.specs.LineMemory.{IsRemembered, TakesNone, front_before};
ghost use Rattle.locale_numbers.specs.LineState.{IsSoundState};

use crate::answering::answer_after_front;
use crate::cached_formatters::CachedFormatters;
use crate::formatter_key::FormatterKey;
use crate::front::{Front, FrontReader, cut_text};
use fixed_decimal::Decimal;
use locale_numbers_book::Tables;
use locale_numbers_cache::ReadKeys;
use locale_numbers_lines::Answerer;
use std::alloc::{AllocError, Global};

// Formatters that are kept, the fronts that were read, and the number that was read last.
#[derive(Drop)]
pub(crate) struct LineAnswerer<'a, T: Tables> {
    /// Where lines allocate.
    pub alloc: Global,
    /// The formatters.
    pub kept: CachedFormatters<'a, T>,
    /// The fronts of lines that were read, and what each asks.
    pub read: ReadKeys<Option<Front>>,
    /// Where numbers are read: the memory of one serves the next.
    pub value: Decimal,
}

impl<'a, T: Tables> LineAnswerer<'a, T> {
    // Puts the answer to a line after what `out` holds. `AllocError`: out of memory; a part of it may then be there.
    pub(crate) fn answer_line(&mut self, line: &[u8], out: &mut String) -> Result<(), AllocError>
        requires { IsSoundState (T.book self.old.kept.maker.tables.now) self.old.kept.formatters self.old.read
            self.old.kept.is_held }
        ensures text { OnOk result (string_bytes out.new
            ≡ string_bytes out.old ++ answer_of (T.book self.old.kept.maker.tables.now) line.now) }
        ensures made { OnOk result ((more : List (List ℕ)) →
            made_over ⟦<FormatterKey as PartialEq>⟧.eq (finds (T.book self.old.kept.maker.tables.now))
            self.old.kept.formatters (map key_of (line.now ∷ more))
            ≡ made_over ⟦<FormatterKey as PartialEq>⟧.eq (finds (T.book self.new.kept.maker.tables.now))
            self.new.kept.formatters (map key_of more)) }
        ensures recent { OnOk result (recent_of self.new.kept.formatters
            ≡ keeps_after (keeping_in (T.book self.old.kept.maker.tables.now) self.old.kept.formatters) (line.now ∷ [])) }
        ensures capacity { OnOk result (self.new.kept.formatters.capacity ≡ self.old.kept.formatters.capacity) }
        // What was kept for a key is kept for it still, but where it was dropped to make room; also after an error.
        ensures kept { StillKept ⟦<FormatterKey as PartialEq>⟧.eq self.old.kept.formatters self.new.kept.formatters }
        ensures same { T.book self.new.kept.maker.tables.now ≡ T.book self.old.kept.maker.tables.now }
        ensures ready { IsSoundState (T.book self.new.kept.maker.tables.now) self.new.kept.formatters self.new.read
            self.new.kept.is_held }
        ensures err { OnErr result (Grows (string_bytes out.old) (string_bytes out.new)) }

        // A request whose front was read lately, whose formatter is kept, with what reads a unit where it reads one, and
        // whose text takes no memory, after the number that was read before, takes none where there is room for its answer.
        ensures room { (asked : Asked) → request_of line.now ≡ Some asked
            → HasRoom out.old (answer_of (T.book self.old.kept.maker.tables.now) line.now)
            → IsRemembered (front_before line.now asked.text) self.old.read
            → TakesNone (T.book self.old.kept.maker.tables.now)
            (λ key. ¬ (IsTrue (has ⟦<FormatterKey as PartialEq>⟧.eq key (recent_of self.old.kept.formatters))))
            (λ key. kept_for ⟦<FormatterKey as PartialEq>⟧.eq key self.old.kept.formatters)
            self.old.value asked
            → IsOk result }
    {
        let (front, text) = cut_text(line);
        let reader = FrontReader { alloc: self.alloc };
        let same = self.read.find(&reader, front)?;
        // the formatter of another front has to be looked for
        self.kept.is_held &= same;
        answer_after_front(
            self.alloc,
            &mut self.value,
            &mut self.kept,
            self.read.latest(),
            text,
            out,
        )
    }
}

impl<'a, T: Tables> Answerer for LineAnswerer<'a, T> {
    ghost is_ready = { λ s. IsSoundState (T.book s.kept.maker.tables.now) s.kept.formatters s.read
        s.kept.is_held };

    ghost answer_of = { λ s line. answer_of (T.book s.kept.maker.tables.now) line };

    ghost made_over = { λ s lines. made_over ⟦<FormatterKey as PartialEq>⟧.eq (finds (T.book s.kept.maker.tables.now))
        s.kept.formatters (map key_of lines) };

    fn answer_onto(&mut self, line: &[u8], out: &mut String) -> Result<(), AllocError> {
        self.answer_line(line, out)
    }

    fn made(&self) -> u64 {
        self.kept.formatters.made()
    }
}
