//! Answers to many lines over buffers of the caller's: `legumeyet_answers_open`, `_answer` and `_close`.

ghost use Rattle.std.specs.Prelude.{◌≡◌, true, Err, None, Some, IfOk, IfErr, IsSome};
ghost use Rattle.legumeyet_c_values.specs.LineBuffers.{buffers};
ghost use Rattle.legumeyet_c_values.specs.Putting.{Answers};
ghost use Rattle.legumeyet_c.specs.Kinds.{answers_in, book_in, is_kept};
ghost use Rattle.legumeyet_c.specs.LineAnswering.{AreAnswered, FindsAnswers, IsAnswersFault};
ghost use Rattle.legumeyet_c.specs.Opened.{opened};
ghost use Rattle.legumeyet_c.specs.Opening.{IsClosing, IsOpening};
ghost use Rattle.legumeyet_c.specs.Views.{answers_content, answers_open, book_content, book_open};

use crate::content::{Content, ContentKind, kept_in};
use crate::handle::Handle;
use crate::handles::{AnswersHandle, BookHandle};
use crate::held_answers::HeldAnswers;
use crate::opening::{close, put_after};
use legumeyet_c_values::{CallError, status_of};
use locale_numbers::Book;
use std::alloc::Global;

// The answers of a kept book. `UnknownOption`: the capacity is 0. `Memory`: out of memory.
fn answers_of(alloc: Global, book: &'static Book, capacity: usize) -> Result<HeldAnswers, CallError>
    ensures value { IfOk result (λ held. FindsAnswers (Some book.now) true capacity held) }
    ensures fault { IfErr result (λ error. IsAnswersFault (Some book.now) true capacity error) }
{
    if capacity == 0 {
        return Err(CallError::UnknownOption);
    }
    match HeldAnswers::new(alloc, book, capacity) {
        Ok(held) => Ok(held),
        Err(_) => Err(CallError::Memory),
    }
}

// Those of the book that is open, where it is kept.
fn answers_opened(
    alloc: Global,
    content: Option<&Content>,
    capacity: usize,
) -> Result<HeldAnswers, CallError>
    ensures value { IfOk result
        (λ held. FindsAnswers (book_in (opened content.entry)) (is_kept (opened content.entry)) capacity held) }
    ensures fault { IfErr result
        (λ error. IsAnswersFault (book_in (opened content.entry)) (is_kept (opened content.entry)) capacity error) }
{
    let Some(content) = content else {
        return Err(CallError::Closed);
    };
    let is_open = Book::of_content(content).is_some();
    match kept_in(content) {
        Some(kept) => answers_of(alloc, kept, capacity),
        None => {
            if is_open {
                Err(CallError::Unkept)
            } else {
                Err(CallError::Closed)
            }
        }
    }
}

// Opens a handle with those of the book of another one, where it is kept; the book stays as it is.
fn open_answers(
    alloc: Global,
    book: &mut Handle,
    capacity: usize,
    handle: &mut Handle,
) -> Result<(), CallError>
    ensures same { book.new.pointer.value ≡ book.old.pointer.value }
    ensures told { IsOpening answers_in
        (FindsAnswers (book_in book.old.pointer.value) (is_kept book.old.pointer.value) capacity)
        (IsAnswersFault (book_in book.old.pointer.value) (is_kept book.old.pointer.value) capacity)
        handle.old.pointer.value handle.new.pointer.value result }
{
    match answers_opened(alloc, book.content(), capacity) {
        Ok(held) => put_after(alloc, handle, held, CallError::Memory),
        Err(error) => Err(error),
    }
}

/// Opens answers to request lines by a book that is kept, with the formatters that were used last, so many as `capacity`
/// is. What the handle had open is closed, where the call returns 0, and else the handle is as it was; the book stays
/// open.
///
/// Returns 0; 2, the book is closed; 15, it is not kept; 4, the capacity is 0; 1, out of memory.
#[unsafe(no_mangle)]
pub extern "C" fn legumeyet_answers_open(
    alloc: Global,
    book: &mut BookHandle,
    capacity: usize,
    answers: &mut AnswersHandle,
) -> i32
    ensures same { book_content book.new ≡ book_content book.old }
    ensures told { Answers
        (IsOpening answers_in (FindsAnswers (book_open book.old) (is_kept (book_content book.old)) capacity)
        (IsAnswersFault (book_open book.old) (is_kept (book_content book.old)) capacity)
        (answers_content answers.old) (answers_content answers.new)) result }
{
    status_of(open_answers(alloc, &mut book.handle, capacity, &mut answers.handle))
}

/// Closes answers, and frees their memory; the book stays as it is.
///
/// Returns 0; 2, where they were closed already.
#[unsafe(no_mangle)]
pub extern "C" fn legumeyet_answers_close(alloc: Global, answers: &mut AnswersHandle) -> i32
    ensures closed { answers_open answers.new ≡ None }
    ensures gone { IsSome (answers_open answers.old) → answers_content answers.new ≡ None }
    ensures same { answers_open answers.old ≡ None → answers_content answers.new ≡ answers_content answers.old }
    ensures told { Answers (IsClosing (answers_open answers.old)) result }
{
    status_of(close::<HeldAnswers>(alloc, &mut answers.handle))
}

// What a closed handle leaves: nothing is read or written.
fn answer_none(read: &mut usize, written: &mut usize, needs: &mut usize) -> Result<(), CallError>
    ensures read { read.new ≡ 0 }
    ensures written { written.new ≡ 0 }
    ensures needs { needs.new ≡ 0 }
    ensures told { result ≡ Err CallError.Closed }
{
    *read = 0;
    *written = 0;
    *needs = 0;
    Err(CallError::Closed)
}

// Answers lines with what a content has.
fn answer_held(
    content: &mut Content,
    lines: &[u8],
    out: &mut [u8],
    read: &mut usize,
    written: &mut usize,
    needs: &mut usize,
) -> Result<(), CallError>
    ensures same { content.new ≡ content.old }
    ensures told { AreAnswered (answers_in (Some content.old)) lines.now
        (buffers out.old read.old written.old needs.old) (buffers out.new read.new written.new needs.new) result }
{
    match content {
        Content::Answers(held) => held.answer(lines, out, read, written, needs),
        Content::Book(_) | Content::Kept(_) | Content::Formatter(_) | Content::Nothing => {
            answer_none(read, written, needs)
        }
    }
}

// Answers lines with what a handle has open, which stays as it is.
fn answer_after(
    handle: &mut Handle,
    lines: &[u8],
    out: &mut [u8],
    read: &mut usize,
    written: &mut usize,
    needs: &mut usize,
) -> Result<(), CallError>
    ensures same { handle.new.pointer.value ≡ handle.old.pointer.value }
    ensures told { AreAnswered (answers_in handle.old.pointer.value) lines.now
        (buffers out.old read.old written.old needs.old) (buffers out.new read.new written.new needs.new) result }
{
    if handle.is_open {
        answer_held(handle.pointer.get_mut(), lines, out, read, written, needs)
    } else {
        answer_none(read, written, needs)
    }
}

/// Answers the request lines that a line feed ends, in order, as long as an answer has room: each by the text that
/// `legumeyet_book_answer` writes, and a line feed. `read` is how many bytes of the lines were answered, and `written` how
/// many bytes the answers are. What is after the last line feed is not read.
///
/// Returns 0; 2, the handle is closed; 1, out of memory; 3, the next answer is longer than the bytes that are left, and
/// `needs` is its length with its line feed, which else is 0.
#[unsafe(no_mangle)]
pub extern "C" fn legumeyet_answers_answer(
    answers: &mut AnswersHandle,
    lines: &[u8],
    out: &mut [u8],
    read: &mut usize,
    written: &mut usize,
    needs: &mut usize,
) -> i32
    ensures same { answers_content answers.new ≡ answers_content answers.old }
    ensures told { Answers
        (AreAnswered (answers_open answers.old) lines.now (buffers out.old read.old written.old needs.old)
        (buffers out.new read.new written.new needs.new)) result }
{
    status_of(answer_after(&mut answers.handle, lines, out, read, written, needs))
}
