//! Numbers written with their parts: `legumeyet_formatter_format_parts`.

ghost use Rattle.std.specs.Prelude.{◌≡◌, IfOk, IfErr};
ghost use Rattle.legumeyet_c_values.specs.Numbers.{spelled};
ghost use Rattle.legumeyet_c_values.specs.Parts.{IsPutInParts, given, held_text};
ghost use Rattle.legumeyet_c_values.specs.Putting.{Answers};
ghost use Rattle.legumeyet_c.specs.Kinds.{format_in};
ghost use Rattle.legumeyet_c.specs.Opened.{opened};
ghost use Rattle.legumeyet_c.specs.Views.{format_content, format_open};
ghost use Rattle.legumeyet_c.specs.Worded.{IsInPartsFault, IsTextInParts};
ghost use Rattle.legumeyet_c.specs.Writing.{IsNumberWritingFault, WritesNumber};

use crate::asking::asked;
use crate::content::Content;
use crate::formatting::text_in_parts;
use crate::handles::FormatterHandle;
use fixed_decimal::Decimal;
use legumeyet_c_values::{CallError, GivenNumber, Interval, put_parts, status_of};
use std::alloc::Global;
use writeable::PartsSink;

// The text of a number with its parts, by what is open.
fn opened_in_parts(
    alloc: Global,
    content: Option<&Content>,
    number: &[u8],
    words: &[i32],
) -> Result<PartsSink, CallError>
    ensures value { IfOk result
        (λ sink. WritesNumber IsTextInParts (format_in (opened content.entry)) words.now (spelled number.now)
        (held_text sink)) }
    ensures fault { IfErr result
        (λ error. IsNumberWritingFault IsInPartsFault (format_in (opened content.entry)) words.now (spelled number.now)
        error) }
{
    let asked = asked(alloc, content, words)?;
    let fractions = asked.lent.fractions();
    let mut value = Decimal::zero(alloc);
    let given = GivenNumber::Text(number);
    match given.assign_changed(alloc, &asked.options, fractions, &mut value) {
        Ok(()) => text_in_parts(alloc, &asked.lent, &mut value),
        Err(error) => Err(error),
    }
}

// Answers a call that writes a number and its parts with what is open.
pub(crate) fn answer_parts(
    alloc: Global,
    content: Option<&Content>,
    number: &[u8],
    words: &[i32],
    out: &mut [u8],
    length: &mut usize,
    intervals: &mut [Interval],
    count: &mut usize,
) -> i32
    ensures { Answers
        (IsPutInParts
        (WritesNumber IsTextInParts (format_in (opened content.entry)) words.now (spelled number.now))
        (IsNumberWritingFault IsInPartsFault (format_in (opened content.entry)) words.now (spelled number.now))
        (given out.old length.old intervals.old count.old) (given out.new length.new intervals.new count.new))
        result }
{
    match opened_in_parts(alloc, content, number, words) {
        Ok(sink) => status_of(put_parts(&sink, out, length, intervals, count)),
        Err(error) => error.number(),
    }
}

/// Writes a decimal number that is given as text, and lists the parts of its text in order of their beginning: of
/// `-€1,234.50` the minus sign at 0 to 1, the currency at 1 to 4, the integer at 4 to 9, the group at 5 to 6, the decimal
/// at 9 to 10 and the fraction at 10 to 12; of scientific text those of its exponent too, of compact text those of its sign
/// alone, unless it has digits of its own, and of the word of a plural category none. `count` is how many.
///
/// Returns as `legumeyet_formatter_format`; 1 of any number; 3 also where the list needs more room.
#[unsafe(no_mangle)]
pub extern "C" fn legumeyet_formatter_format_parts(
    alloc: Global,
    formatter: &mut FormatterHandle,
    number: &[u8],
    options: &[i32],
    out: &mut [u8],
    length: &mut usize,
    intervals: &mut [Interval],
    count: &mut usize,
) -> i32
    ensures same { format_content formatter.new ≡ format_content formatter.old }
    ensures told { Answers
        (IsPutInParts (WritesNumber IsTextInParts (format_open formatter.old) options.now (spelled number.now))
        (IsNumberWritingFault IsInPartsFault (format_open formatter.old) options.now (spelled number.now))
        (given out.old length.old intervals.old count.old) (given out.new length.new intervals.new count.new))
        result }
{
    let content = formatter.handle.content();
    answer_parts(
        alloc, content, number, options, out, length, intervals, count,
    )
}
