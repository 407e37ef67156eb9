//! Categories of ranges: `legumeyet_formatter_format_range`.

ghost use Rattle.std.specs.Prelude.{◌≡◌, Ok, IfErr, OnOk};
ghost use Rattle.legumeyet_c_values.specs.Numbers.{spelled};
ghost use Rattle.legumeyet_c_values.specs.Putting.{Answers, IsPut};
ghost use Rattle.legumeyet_c.specs.Kinds.{format_in};
ghost use Rattle.legumeyet_c.specs.Opened.{opened};
ghost use Rattle.legumeyet_c.specs.Views.{format_content, format_open};
ghost use Rattle.legumeyet_c.specs.Worded.{IsRange, IsRangeFault};
ghost use Rattle.legumeyet_c.specs.Writing.{AreEndsRefused, GivesEnds, IsRangeWritingFault, IsWritingFault, Writes, WritesRange, asked_for, range_asked_by};

use crate::asking::{AskedFormatter, asked};
use crate::categories::put_range;
use crate::content::Content;
use crate::handles::FormatterHandle;
use crate::lent_formatter::LentFormatter;
use fixed_decimal::Decimal;
use legumeyet_c_values::{CallError, GivenNumber, status_of};
use locale_numbers_formats::NumberOptions;
use std::alloc::Global;

// Replaces two numbers by those that texts spell, each changed as options ask for. The errors are those of the first text,
// and then of the second.
fn give_ends(
    alloc: Global,
    lent: &LentFormatter<'_>,
    options: &NumberOptions,
    first: &[u8],
    second: &[u8],
    start: &mut Decimal,
    end: &mut Decimal,
) -> Result<(), CallError>
    ensures value { OnOk result (GivesEnds (spelled first.now) (spelled second.now)
        (asked_for lent.now options.now) (start.new, end.new)) }
    ensures fault { IfErr result (λ error. AreEndsRefused (spelled first.now) (spelled second.now)
        (asked_for lent.now options.now) error) }
{
    let (first, second) = (GivenNumber::Text(first), GivenNumber::Text(second));
    let fractions = lent.fractions();
    first.assign_changed(alloc, options, fractions, start)?;
    match second.assign_changed(alloc, options, fractions, end) {
        Ok(()) => Ok(()),
        Err(error) => Err(error),
    }
}

// Writes the category of a range as is asked. `UnknownOption`: the formatter writes no words.
fn write_range(
    alloc: Global,
    asked: &AskedFormatter<'_>,
    first: &[u8],
    second: &[u8],
    out: &mut [u8],
    length: &mut usize,
) -> Result<(), CallError>
    ensures { IsPut (Writes IsRange (GivesEnds (spelled first.now) (spelled second.now)) (range_asked_by (Ok asked.now)))
        (IsWritingFault IsRangeFault (GivesEnds (spelled first.now) (spelled second.now))
        (AreEndsRefused (spelled first.now) (spelled second.now)) (range_asked_by (Ok asked.now))) out.old out.new
        length.old length.new result }
{
    let (lent, options) = (&asked.lent, &asked.options);
    let Some(plurals) = lent.plurals() else {
        return Err(CallError::UnknownOption);
    };
    let mut start = Decimal::zero(alloc);
    let mut end = Decimal::zero(alloc);
    match give_ends(alloc, lent, options, first, second, &mut start, &mut end) {
        Ok(()) => put_range(lent.get(), &plurals, &mut start, &mut end, out, length),
        Err(error) => Err(error),
    }
}

// Answers a call that writes the category of a range with what is open.
pub(crate) fn answer_range(
    alloc: Global,
    content: Option<&Content>,
    first: &[u8],
    second: &[u8],
    words: &[i32],
    out: &mut [u8],
    length: &mut usize,
) -> i32
    ensures { Answers
        (IsPut (WritesRange (format_in (opened content.entry)) words.now (spelled first.now) (spelled second.now))
        (IsRangeWritingFault (format_in (opened content.entry)) words.now (spelled first.now) (spelled second.now))
        out.old out.new length.old length.new) result }
{
    match asked(alloc, content, words) {
        Ok(asked) => status_of(write_range(alloc, &asked, first, second, out, length)),
        Err(error) => error.number(),
    }
}

/// Writes the plural category of the range from one number to another, by those of both ends as they are shown: of `0` and
/// `1` in French `one`, and in English `other`. It is for a formatter with plurals.
///
/// Returns 0; 2, the handle is closed; 4, an option is unknown, or the formatter has no plurals; of the first number and
/// then of the second 7, the text is no decimal number, 8, one with a digit beyond the magnitudes -32768 to 32767, and 1,
/// out of memory, which a number of sixteen digits at most takes only where it is rounded to multiples of 25; 9, what
/// compact or scientific text shows of one has such a digit; 3, the text needs more room.
#[unsafe(no_mangle)]
pub extern "C" fn legumeyet_formatter_format_range(
    alloc: Global,
    formatter: &mut FormatterHandle,
    first: &[u8],
    second: &[u8],
    options: &[i32],
    out: &mut [u8],
    length: &mut usize,
) -> i32
    ensures same { format_content formatter.new ≡ format_content formatter.old }
    ensures told { Answers
        (IsPut (WritesRange (format_open formatter.old) options.now (spelled first.now) (spelled second.now))
        (IsRangeWritingFault (format_open formatter.old) options.now (spelled first.now) (spelled second.now)) out.old
        out.new length.old length.new) result }
{
    let content = formatter.handle.content();
    answer_range(alloc, content, first, second, options, out, length)
}
