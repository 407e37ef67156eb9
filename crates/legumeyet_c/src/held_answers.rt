//! Answers to lines by a book that is kept, with the formatters that were used last.

ghost use Rattle.std.specs.Prelude.{◌≡◌, ◌≤◌, IfOk};
ghost use Rattle.legumeyet_c_values.specs.LineBuffers.{IsAnswered, buffers};
ghost use Rattle.locale_numbers.specs.Answer.{answer_of};

use legumeyet_c_values::{AnswerLine, CallError, answer_lines};
use locale_numbers::{Answers, Book};
use std::alloc::{AllocError, Global};
use std::marker::Model;

// What answers each line alone.
#[derive(Drop)]
pub(crate) struct BookAnswers {
    answers: Answers<'static, Book>,
}

impl Model for BookAnswers {
    ghost use Rattle.locale_numbers.specs.Book.{BookTables};

    ghost Value = { BookTables };

    ghost view = { λ a. a.answers.book };
}

impl AnswerLine for BookAnswers {
    ghost answer = { λ a line. answer_of a line };

    fn answer_onto(&mut self, line: &[u8], text: &mut String) -> Result<(), AllocError> {
        self.answers.answer_onto(line, text)
    }
}

/// What a handle answers lines with, and room for an answer. A contract sees the book.
#[derive(Drop)]
pub struct HeldAnswers {
    answers: Box<BookAnswers>,
    text: String,
}

impl Model for HeldAnswers {
    ghost use Rattle.locale_numbers.specs.Book.{BookTables};

    ghost Value = { BookTables };

    ghost view = { λ a. a.answers.value };
}

impl HeldAnswers {
    // The answers of a book, with the formatters that were used last, so many as the capacity is. `AllocError`: out of
    // memory.
    pub(crate) fn new(
        alloc: Global,
        book: &'static Book,
        capacity: usize,
    ) -> Result<HeldAnswers, AllocError>
        requires room { 1 ≤ capacity }
        ensures { IfOk result (λ held. held ≡ book.now) }
    {
        let answers = Answers::new(alloc, book, capacity)?;
        let answers = Box::new(alloc, BookAnswers { answers })?;
        Ok(HeldAnswers {
            answers,
            text: String::new(alloc),
        })
    }

    // Answers lines over bytes of the caller's, as `answer_lines`.
    pub(crate) fn answer(
        &mut self,
        lines: &[u8],
        out: &mut [u8],
        read: &mut usize,
        written: &mut usize,
        needs: &mut usize,
    ) -> Result<(), CallError>
        ensures same { self.new ≡ self.old }
        ensures told { IsAnswered (answer_of self.old) lines.now (buffers out.old read.old written.old needs.old)
            (buffers out.new read.new written.new needs.new) result }
    {
        answer_lines::<BookAnswers>(
            &mut self.answers,
            &mut self.text,
            lines,
            out,
            read,
            written,
            needs,
        )
    }
}
