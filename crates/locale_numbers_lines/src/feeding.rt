//! The lines that end in one piece of the input, and what is held for the next piece.

ghost use Rattle.std.specs.Prelude.{◌≡◌, ◌<◌, false, ◌++◌, [], length, string_bytes, OnOk};
ghost use Rattle.locale_numbers_lines.specs.Lines.{HasNoFeed};
ghost use Rattle.locale_numbers_lines.specs.Outcomes.{ends_in_write};
ghost use Rattle.locale_numbers_lines.specs.Progress.{Feeds};

use crate::answerer::Answerer;
use crate::byte_writer::ByteWriter;
use crate::first_line::split_line;
use crate::ready_answers::answer_held;
use crate::run_error::RunError;
use crate::writing::{PIECE, write_full, write_ready};

// Answers the lines that end in this piece, and holds what is after the last line feed. Answers
// may be left ready; after Memory those that are left are whole.
fn gather<A: Answerer, W: ByteWriter>(
    answerer: &mut A,
    held: &mut Vec<u8>,
    ready: &mut String,
    lines: u64,
    piece: &[u8],
    writer: &mut W,
) -> Result<u64, RunError>
    requires can_answer { A.is_ready answerer.old }
    requires cut { HasNoFeed held.old.items }
    requires nothing { string_bytes ready.old ≡ [] }
    requires writer_well { W.failed writer.old ≡ false }
    ensures came { Feeds (A.answer_of answerer.old) (held.old.items ++ piece.now) held.new.items
        (string_bytes ready.new)
        (W.contents writer.old) (W.contents writer.new) lines (A.made_over answerer.old) (A.made_over answerer.new)
        result }
    ensures short { OnOk result (length (string_bytes ready.new) < PIECE) }
    ensures fault { W.failed writer.new ≡ ends_in_write result }
    ensures same { A.answer_of answerer.new ≡ A.answer_of answerer.old }
    ensures can_answer { A.is_ready answerer.new }
{
    let mut count = lines;
    let mut left = piece;
    'line: while let Some((line, rest)) = split_line(left) {
        answer_held(answerer, held, line, ready)?;
        left = rest;
        count = count.saturating_add(1);
        write_full(writer, ready)?;
    }
    held.extend_from_slice(left)?;
    Ok(count)
}

// The same, and writes all answers that are ready.
pub fn feed<A: Answerer, W: ByteWriter>(
    answerer: &mut A,
    held: &mut Vec<u8>,
    ready: &mut String,
    lines: u64,
    piece: &[u8],
    writer: &mut W,
) -> Result<u64, RunError>
    requires can_answer { A.is_ready answerer.old }
    requires cut { HasNoFeed held.old.items }
    requires nothing { string_bytes ready.old ≡ [] }
    requires writer_well { W.failed writer.old ≡ false }
    ensures came { Feeds (A.answer_of answerer.old) (held.old.items ++ piece.now) held.new.items []
        (W.contents writer.old) (W.contents writer.new) lines (A.made_over answerer.old) (A.made_over answerer.new)
        result }
    ensures nothing { OnOk result (string_bytes ready.new ≡ []) }
    ensures fault { W.failed writer.new ≡ ends_in_write result }
    ensures same { A.answer_of answerer.new ≡ A.answer_of answerer.old }
    ensures can_answer { A.is_ready answerer.new }
{
    match gather(answerer, held, ready, lines, piece, writer) {
        Ok(count) => {
            write_ready(writer, ready)?;
            Ok(count)
        }
        Err(RunError::Memory) => {
            write_ready(writer, ready)?;
            Err(RunError::Memory)
        }
        Err(refusal) => Err(refusal),
    }
}
