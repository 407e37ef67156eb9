//! A run from the first read to the flush after the last line.

ghost use Rattle.std.specs.Prelude.{◌≡◌, ◌<◌, [], length, string_bytes, true, false, IfOk, IsErrOf, MatchResult, OnOk};
ghost use Rattle.std.specs.Io.KnownBytes.{Keeps};
ghost use Rattle.locale_numbers_lines.specs.Lines.{answers_to, last_line};
ghost use Rattle.locale_numbers_lines.specs.Outcomes.{MatchRun, ends_in_write, is_write};
ghost use Rattle.locale_numbers_lines.specs.Progress.{AnswersAll, Finishes};
ghost use Rattle.locale_numbers_lines.specs.Run.{WritesAll, WritesTold, WritesPart, WritesFirst, WritesFront};
ghost use Rattle.locale_numbers_lines.specs.Run.{CountsLines, CountsMade, MayReadOnceAnswered};

use crate::answerer::Answerer;
use crate::byte_reader::ByteReader;
use crate::byte_writer::ByteWriter;
use crate::feeding::feed;
use crate::ready_answers::answer_line;
use crate::report::Report;
use crate::run_error::RunError;
use crate::writing::{PIECE, write_ready};
use std::alloc::Global;

// Answers what is after the last line feed, where any byte does.
fn finish<A: Answerer, W: ByteWriter>(
    answerer: &mut A,
    held: &[u8],
    ready: &mut String,
    lines: u64,
    writer: &mut W,
) -> Result<u64, RunError>
    requires can_answer { A.is_ready answerer.old }
    requires nothing { string_bytes ready.old ≡ [] }
    requires writer_well { W.failed writer.old ≡ false }
    ensures came { let answer = A.answer_of answerer.old in
        let before = W.contents writer.old in
        let after = W.contents writer.new in
        MatchResult result
        (λ count. Finishes answer held.now before after lines count (A.made_over answerer.old)
        (A.made_over answerer.new))
        (λ refusal. MatchRun refusal ⊥ (WritesFront (answers_to answer (last_line held.now)) before after)
        (Keeps before after)) }
    ensures fault { W.failed writer.new ≡ ends_in_write result }
    ensures same { A.answer_of answerer.new ≡ A.answer_of answerer.old }
    ensures can_answer { A.is_ready answerer.new }
{
    if held.is_empty() {
        return Ok(lines);
    }
    answer_line(answerer, held, ready)?;
    write_ready(writer, ready)?;
    Ok(lines.saturating_add(1))
}

// Flushes after a read that failed: Read, or Write where that fails.
fn stop<W: ByteWriter>(writer: &mut W) -> RunError
    requires { W.failed writer.old ≡ false }
    ensures kept { let kept = Keeps (W.contents writer.old) (W.contents writer.new) in
        MatchRun result kept kept ⊥ }
    ensures fault { W.failed writer.new ≡ is_write result }
{
    match writer.flush() {
        Ok(()) => RunError::Read,
        Err(_) => RunError::Write,
    }
}

// Answers all lines that the reader gives, a piece at a time; the answer is the count of lines.
fn stream<A: Answerer, R: ByteReader, W: ByteWriter>(
    alloc: Global,
    answerer: &mut A,
    reader: &mut R,
    writer: &mut W,
    piece: &mut [u8],
) -> Result<u64, RunError>
    requires can_answer { A.is_ready answerer.old }
    requires room { 0 < length piece.old }
    requires reader_well { R.failed reader.old ≡ false }
    requires writer_well { W.failed writer.old ≡ false }
    requires prompt { MayReadOnceAnswered R.may_read R.remaining W.contents (A.answer_of answerer.old) reader.old
        writer.old }
    ensures outcome { let answer = A.answer_of answerer.old in
        let had = R.remaining reader.old in
        let held = W.contents writer.old in
        let holds = W.contents writer.new in
        MatchResult result
        (λ count. AnswersAll answer had held holds count (A.made_over answerer.old) (A.made_over answerer.new))
        (λ refusal. MatchRun refusal
        (WritesTold answer had (R.remaining reader.new) held holds)
        (WritesPart answer had held holds)
        (WritesFirst answer had held holds)) }
    ensures reader_stays_well { OnOk result (R.failed reader.new ≡ false) }
    ensures reader_failed { IsErrOf result RunError.Read → R.failed reader.new ≡ true }
    ensures fault { W.failed writer.new ≡ ends_in_write result }
    ensures memory_only { IsErrOf result RunError.Memory →
        (R.failed reader.new ≡ false) × (W.failed writer.new ≡ false) }
    ensures same { A.answer_of answerer.new ≡ A.answer_of answerer.old }
    ensures can_answer { A.is_ready answerer.new }
{
    let mut held = Vec::new(alloc);
    let mut ready = String::new(alloc);
    let mut lines = 0;
    'read: loop {
        match reader.read(piece) {
            Ok(0) => {
                let count = finish(answerer, held.as_slice(), &mut ready, lines, writer)?;
                match writer.flush() {
                    Ok(()) => return Ok(count),
                    Err(_) => return Err(RunError::Write),
                }
            }
            Ok(given) => lines = feed(
                answerer,
                &mut held,
                &mut ready,
                lines,
                &piece[..given],
                writer,
            )?,
            Err(_) => return Err(stop(writer)),
        }
    }
}

/// Answers each line that `reader` gives, in order, onto `writer`, each answer with a line feed.
///
/// A line ends at a line feed; what is after the last one is a line too, where it is not empty.
/// With an answerer that turns letters to upper case the bytes `one`, line feed, `two` give `ONE`,
/// line feed, `TWO`, line feed, and a report of 2 lines.
///
/// The bytes are read once, in pieces of 65,536. What is held meanwhile is one piece, the beginning of a
/// line that goes on, and answers: these are written before the next piece is read, and whenever they
/// come to 65,536 bytes. After the last answer the writer is flushed once.
///
/// Of neither `reader` nor `writer` a call may have failed before, and the answerer is ready. The reader
/// is read where each whole line that it gave is answered and written, and nowhere else; a reader that
/// names a condition names one that holds there.
///
/// - Read: a read failed. The whole lines that the reader gave have been answered, and the writer has
///   been flushed.
/// - Write: a write or the flush failed, or a write took no byte. A beginning of the output is written.
/// - Memory: out of memory, here or in the answerer. Some first lines have been
///   answered, each whole.
pub fn run_with<A: Answerer, R: ByteReader, W: ByteWriter>(
    alloc: Global,
    answerer: &mut A,
    reader: &mut R,
    writer: &mut W,
) -> Result<Report, RunError>
    requires can_answer { A.is_ready answerer.old }
    requires reader_well { R.failed reader.old ≡ false }
    requires writer_well { W.failed writer.old ≡ false }

    // A line is answered as soon as it is whole: the reader is read only where all that it gave are.
    requires prompt { MayReadOnceAnswered R.may_read R.remaining W.contents (A.answer_of answerer.old) reader.old
        writer.old }
    ensures output { OnOk result (
        WritesAll (A.answer_of answerer.old) (R.remaining reader.old)
        (W.contents writer.old) (W.contents writer.new)) }
    ensures lines { IfOk result (λ report. CountsLines (R.remaining reader.old) report.lines) }
    ensures made { IfOk result (λ report.
        CountsMade (A.made_over answerer.old) (R.remaining reader.old) report.made) }
    ensures reader_stays_well { OnOk result (R.failed reader.new ≡ false) }
    ensures writer_stays_well { OnOk result (W.failed writer.new ≡ false) }
    ensures read { IsErrOf result RunError.Read →
        WritesTold (A.answer_of answerer.old) (R.remaining reader.old) (R.remaining reader.new)
        (W.contents writer.old) (W.contents writer.new) }
    ensures reader_failed { IsErrOf result RunError.Read → R.failed reader.new ≡ true }
    ensures write { IsErrOf result RunError.Write →
        WritesPart (A.answer_of answerer.old) (R.remaining reader.old)
        (W.contents writer.old) (W.contents writer.new) }
    ensures writer_failed { IsErrOf result RunError.Write → W.failed writer.new ≡ true }

    // The writer has failed just where the answer is Write.
    ensures fault { W.failed writer.new ≡ ends_in_write result }
    ensures memory { IsErrOf result RunError.Memory →
        WritesFirst (A.answer_of answerer.old) (R.remaining reader.old)
        (W.contents writer.old) (W.contents writer.new) }

    // Memory is answered only where no call of either has failed.
    ensures memory_only { IsErrOf result RunError.Memory →
        (R.failed reader.new ≡ false) × (W.failed writer.new ≡ false) }
    ensures same { A.answer_of answerer.new ≡ A.answer_of answerer.old }
    ensures can_answer { A.is_ready answerer.new }
{
    let mut piece = vec![in alloc; 0; PIECE]?;
    let lines = stream(alloc, answerer, reader, writer, piece.as_mut_slice())?;
    Ok(Report {
        lines,
        made: answerer.made(),
    })
}
