//! Request lines answered over buffers of the caller's, each as soon as it is whole.

ghost use Rattle.std.specs.Prelude.{◌≡◌, ◌++◌, IfErr, OnOk, string_bytes};
ghost use Rattle.locale_numbers_lines.specs.Lines.{ended};
ghost use Rattle.legumeyet_c_values.specs.LineBuffers.{IsAnswered, buffers};
ghost use Rattle.legumeyet_c_values.specs.Putting.{IsPut};

use crate::call_error::CallError;
use crate::columns::split_line;
use crate::putting::put_bytes;
use std::alloc::AllocError;

/// What answers lines, each alone: a book.
pub trait AnswerLine {
    ghost use Rattle.std.specs.Prelude.{List, ℕ};

    // the answer to a line, which no call changes
    ghost answer: { Self → List ℕ → List ℕ };

    /// Writes the answer to a line after what the text holds. `AllocError`: out of memory.
    fn answer_onto(&mut self, line: &[u8], text: &mut String) -> Result<(), AllocError>
        ensures text { OnOk result (string_bytes text.new ≡ string_bytes text.old ++ answer self.old line.now) }
        ensures same { self.new ≡ self.old };
}

// The answer to a line, ended by a line feed, as a text.
fn answer_line<A: AnswerLine>(
    answerer: &mut A,
    line: &[u8],
    text: &mut String,
) -> Result<(), CallError>
    ensures text { OnOk result (string_bytes text.new ≡ ended (A.answer answerer.old line.now)) }
    ensures fault { IfErr result (λ error. error ≡ CallError.Memory) }
    ensures same { answerer.new ≡ answerer.old }
{
    text.clear();
    if answerer.answer_onto(line, text).is_err() {
        return Err(CallError::Memory);
    }
    match text.push('\n') {
        Ok(()) => Ok(()),
        Err(_) => Err(CallError::Memory),
    }
}

// Writes it to the front of the bytes, and tells its length. `TooSmall`: it is longer than the bytes.
fn put_answer<A: AnswerLine>(
    answerer: &mut A,
    line: &[u8],
    text: &mut String,
    out: &mut [u8],
    length: &mut usize,
) -> Result<(), CallError>
    ensures put { IsPut (λ said. said ≡ ended (A.answer answerer.old line.now)) (λ error. error ≡ CallError.Memory)
        out.old out.new length.old length.new result }
    ensures same { answerer.new ≡ answerer.old }
{
    match answer_line(answerer, line, text) {
        Ok(()) => put_bytes(text.as_bytes(), out, length),
        Err(error) => Err(error),
    }
}

/// Answers the lines that a line feed ends, in order, as long as an answer has room, and tells how many bytes were read
/// and written: of `a` and `b`, each with its line feed, and then `c`, four bytes are read, where the answers have room.
/// `text` is for the answers, one at a time.
///
/// `TooSmall`: the next answer is longer than the bytes that are left, and `needs` is its length; else that is 0.
/// `Memory`: out of memory.
pub fn answer_lines<A: AnswerLine>(
    answerer: &mut A,
    text: &mut String,
    lines: &[u8],
    out: &mut [u8],
    read: &mut usize,
    written: &mut usize,
    needs: &mut usize,
) -> Result<(), CallError>
    ensures same { answerer.new ≡ answerer.old }
    ensures told { IsAnswered (A.answer answerer.old) lines.now (buffers out.old read.old written.old needs.old)
        (buffers out.new read.new written.new needs.new) result }
{
    *read = 0;
    *written = 0;
    *needs = 0;
    let mut left = lines;
    'line: while let Some((line, rest)) = split_line(left) {
        put_answer(answerer, line, text, &mut out[*written..], needs)?;
        *written += *needs;
        *needs = 0;
        *read = lines.len() - rest.len();
        left = rest;
    }
    Ok(())
}
