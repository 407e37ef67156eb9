//! All lines of a reader, answered onto a writer.

ghost use Rattle.std.specs.Prelude.{◌≡◌, ◌≤◌, false, true, IfOk, OnOk, IsErrOf};
ghost use Rattle.locale_numbers_lines.specs.Outcomes.{ends_in_write};
ghost use Rattle.locale_numbers_lines.specs.Run.{WritesAll, WritesTold, WritesPart, WritesFirst, CountsLines, CountsMade, MayReadOnceAnswered};
ghost use Rattle.locale_numbers.specs.Answer.{answer_of};
ghost use Rattle.locale_numbers.specs.FormatterKeys.{makes};

use crate::cached_formatters::CachedFormatters;
use crate::kept_formatter::FormatterMaker;
use crate::line_answerer::LineAnswerer;
use fixed_decimal::Decimal;
use locale_numbers_book::Tables;
use locale_numbers_cache::{FormatterCache, ReadKeys};
use locale_numbers_lines::{ByteReader, ByteWriter, Report, RunError, run_with};
use std::alloc::Global;

/// Answers each line that `reader` gives, in order, onto `writer`, each answer with a line feed.
///
/// For every book that loads and every list of request lines, however cut and with any cache, the
/// output is line by line one definition's answer for the book and that line alone, refusals
/// included; tags alike in language, script, region, first variant and the values of `nu` and `sd` are
/// answered alike; and under readable symbols `read` accepts exactly the plain texts, giving back the
/// sign and digits written, and `read-lenient` gives the same answer to these. The definition is that
/// of [`answer`](crate::answer).
///
/// A line ends at a line feed; what is after the last one is a line too, where it is not empty.
/// Under the sample book the bytes `xx`, line feed give `err`, a tab, `shape`, line feed, and a report
/// of 1 line.
///
/// `capacity` is how many formatters are kept, 1 at least: those that were used last. A line uses the
/// formatter of what its tag prefers, of its form's tables, rules, exponents and own digits and of its
/// grouping, once its tag and its number were read and where these are found; `made` counts the uses whose
/// formatter was not kept. Of neither `reader` nor `writer` a call may have failed before. Allocates; that it takes
/// no more memory for more lines is measured by bench/, and not proved.
///
/// A line is answered as soon as it is whole: `reader` is read where each whole line that it gave is
/// answered and written, and nowhere else; a reader that names a condition names one that holds there.
///
/// - Read: a read failed. The whole lines that the reader gave have been answered.
/// - Write: a write or the flush failed, or a write took no byte. A beginning of the output is written.
/// - Memory: out of memory. Some first lines have been answered, each whole.
pub fn run<T: Tables, R: ByteReader, W: ByteWriter>(
    alloc: Global,
    tables: &T,
    capacity: usize,
    reader: &mut R,
    writer: &mut W,
) -> Result<Report, RunError>
    requires room { 1 ≤ capacity }
    requires reader_well { R.failed reader.old ≡ false }
    requires writer_well { W.failed writer.old ≡ false }

    // A line is answered as soon as it is whole: the reader is read only where all that it gave are.
    requires prompt { MayReadOnceAnswered R.may_read R.remaining W.contents (answer_of (T.book tables.now)) reader.old
        writer.old }
    ensures output { OnOk result (
        WritesAll (answer_of (T.book tables.now)) (R.remaining reader.old)
        (W.contents writer.old) (W.contents writer.new)) }
    ensures lines { IfOk result (λ report. CountsLines (R.remaining reader.old) report.lines) }
    ensures made { IfOk result (λ report.
        CountsMade (makes (T.book tables.now) capacity) (R.remaining reader.old) report.made) }
    ensures reader_stays_well { OnOk result (R.failed reader.new ≡ false) }
    ensures writer_stays_well { OnOk result (W.failed writer.new ≡ false) }
    ensures read { IsErrOf result RunError.Read →
        WritesTold (answer_of (T.book tables.now)) (R.remaining reader.old) (R.remaining reader.new)
        (W.contents writer.old) (W.contents writer.new) }
    ensures reader_failed { IsErrOf result RunError.Read → R.failed reader.new ≡ true }
    ensures write { IsErrOf result RunError.Write →
        WritesPart (answer_of (T.book tables.now)) (R.remaining reader.old)
        (W.contents writer.old) (W.contents writer.new) }
    ensures writer_failed { IsErrOf result RunError.Write → W.failed writer.new ≡ true }

    // The writer has failed just where the answer is Write.
    ensures fault { W.failed writer.new ≡ ends_in_write result }
    ensures memory { IsErrOf result RunError.Memory →
        WritesFirst (answer_of (T.book tables.now)) (R.remaining reader.old)
        (W.contents writer.old) (W.contents writer.new) }

    // Memory is answered only where no call of either has failed.
    ensures memory_only { IsErrOf result RunError.Memory →
        (R.failed reader.new ≡ false) × (W.failed writer.new ≡ false) }
{
    let formatters = FormatterCache::new(alloc, capacity)?;
    let kept = CachedFormatters {
        maker: FormatterMaker { alloc, tables },
        formatters,
        is_held: false,
    };
    let mut answerer = LineAnswerer {
        alloc,
        kept,
        read: ReadKeys::new(alloc)?,
        value: Decimal::zero(alloc),
    };
    run_with(alloc, &mut answerer, reader, writer)
}
