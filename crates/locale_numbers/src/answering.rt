//! The answer of a book to a line.

ghost use Rattle.std.specs.Prelude.{◌≡◌, ◌∷◌, ◌++◌, List, Option, Some, IfOk, IfSome, IsOk, OnOk, OnErr, string_bytes};
ghost use Rattle.locale_numbers_lines.specs.Growth.{Grows};
ghost use Rattle.locale_numbers.specs.Answer.{answer_of};
ghost use Rattle.locale_numbers_answers.specs.AnswerSink.{HasRoom};
ghost use Rattle.locale_numbers.specs.Front.{FitsKey, HasKeyThat, MayTakeAfter, answer_after, key_after};
ghost use Rattle.locale_numbers.specs.LineMemory.{MayTakeTag, TakesNone, no_number};
ghost use Rattle.locale_numbers_requests.specs.Request.{Asked, request_of};
ghost use Rattle.locale_numbers.specs.KeptFormatters.{StillKeeps};
ghost use Rattle.locale_numbers.specs.declared.formatter_key.FormatterKey.{FormatterKey};

use crate::category_line::answer_category;
use crate::exact_line::answer_exact;
use crate::formatters::Formatters;
use crate::front::{Front, cut_text, read_front};
use crate::lenient_line::answer_lenient;
use crate::number_line::answer_number;
use crate::one_formatter::OneFormatter;
use crate::range_line::answer_range;
use crate::read_line::answer_read;
use fixed_decimal::Decimal;
use locale_numbers_answers::{write_refusal, write_refusal_or_shape};
use locale_numbers_book::Book;
use locale_numbers_requests::{Refusal, Task, as_text};
use std::alloc::{AllocError, Global};

// Writes the answer to a text after a front, after what `out` holds. It is tested as UTF-8 only where no number is
// read.
//
// `value` is where a number is read. `AllocError`: out of memory; a part of the answer may then be there.
pub(crate) fn answer_after_front<'a, F: Formatters<'a>>(
    alloc: Global,
    value: &mut Decimal,
    formatters: &mut F,
    front: &Option<Front>,
    text: &[u8],
    out: &mut String,
) -> Result<(), AllocError>
    requires ready { F.is_ready formatters.old }
    requires fits { IfSome front.now (λ front. IfSome front.key (FitsKey front)) }
    requires right { HasKeyThat (F.is_right_for formatters.old) front.now }
    ensures text { OnOk result (string_bytes out.new
        ≡ string_bytes out.old ++ answer_after (F.book formatters.old) front.now text.now) }
    ensures err { OnErr result (Grows (string_bytes out.old) (string_bytes out.new)) }

    // Where there is room for the answer, and handing out the formatter of the front's key takes none, only a text of
    // more than sixteen digits may be out of memory, to write a number only one of more than `value` had, and a
    // rounding to multiples of 25 that may lengthen one of sixteen, or that is of a compact number's own digits or of a
    // significand.
    ensures room { HasRoom out.old (answer_after (F.book formatters.old) front.now text.now)
        → HasKeyThat (λ key. ¬ (F.may_take_memory formatters.old key)) front.now
        → ¬ (MayTakeAfter (F.book formatters.old) (F.kept_for formatters.old) front.now text.now value.old)
        → IsOk result }
    ensures counted { OnOk result ((more : List (Option FormatterKey)) →
        F.keeping_over formatters.old (key_after front.now text.now ∷ more) ≡ F.keeping_over formatters.new more) }
    ensures kept { StillKeeps (F.kept_for formatters.old) (F.may_take_memory formatters.new)
        (F.kept_for formatters.new) }
    ensures same { F.book formatters.new ≡ F.book formatters.old }
    ensures ready { F.is_ready formatters.new }
    ensures right { HasKeyThat (F.is_right_for formatters.new) front.now }
{
    let Some(front) = front else {
        return write_refusal(out, Refusal::Shape);
    };
    let Some(key) = &front.key else {
        return write_refusal_or_shape(out, text, Refusal::Tag);
    };
    if let Task::Write = front.task {
        return answer_number(
            value,
            formatters,
            key,
            front.options,
            front.is_as_it_is,
            text,
            out,
        );
    }
    if let Task::Category(_) = front.task {
        return answer_category(value, formatters, key, front.options, text, out);
    }
    let Some(text) = as_text(text) else {
        return write_refusal(out, Refusal::Shape);
    };
    match front.task {
        Task::WriteExact => answer_exact(alloc, formatters, key, front.options.sign, text, out),
        Task::Read => answer_read(alloc, formatters, key, front.options.rounding, text, out),
        Task::ReadLenient => answer_lenient(alloc, formatters, key, text, out),
        Task::RangeCategory => {
            answer_range(alloc, value, formatters, key, front.options, text, out)
        }
        Task::Write | Task::Category(_) => unreachable!(),
    }
}

// Writes the answer to a line after what `out` holds. After an error a part of it may be there. What `formatters` notes
// is right for any key.
fn answer_whole_line<'a, F: Formatters<'a>>(
    alloc: Global,
    formatters: &mut F,
    line: &[u8],
    out: &mut String,
) -> Result<(), AllocError>
    requires ready { F.is_ready formatters.old }
    requires right { (key : FormatterKey) → F.is_right_for formatters.old key }
    ensures text { OnOk result (
        string_bytes out.new ≡ string_bytes out.old ++ answer_of (F.book formatters.old) line.now) }
    ensures err { OnErr result (Grows (string_bytes out.old) (string_bytes out.new)) }

    // Where there is room for the answer to a request, only its tag may want memory, its formatter, and its text, as that
    // of the first number.
    ensures room { (asked : Asked) → request_of line.now ≡ Some asked
        → HasRoom out.old (answer_of (F.book formatters.old) line.now)
        → ¬ (MayTakeTag (Some asked))
        → TakesNone (F.book formatters.old) (F.may_take_memory formatters.old) (F.kept_for formatters.old) no_number asked
        → IsOk result }
{
    let (front, text) = cut_text(line);
    let front = read_front(alloc, front)?;
    let mut value = Decimal::zero(alloc);
    answer_after_front(alloc, &mut value, formatters, &front, text, out)
}

// Writes the answer to a line after what `out` holds, with a formatter that is made for it alone. After an error a part
// of it may be there.
fn answer_alone(alloc: Global, book: &Book, line: &[u8], out: &mut String) -> Result<(), AllocError>
    ensures { OnOk result (string_bytes out.new ≡ string_bytes out.old ++ answer_of book.now line.now) }
{
    let mut formatters = OneFormatter {
        tables: book,
        made: None,
    };
    let answered = answer_whole_line(alloc, &mut formatters, line, out);
    drop(formatters);
    answered
}

/// The answer of `book` to a request line, without a line feed.
///
/// A line is six fields between tabs: tag, form, grouping, sign, rounding, text. Under the sample
/// book `en`, `plain`, `auto`, `keep`, `-`, `-987654.321` with tabs between is answered by `ok`, a
/// tab and `-987,654.321`. With the form `short` and the text `1650` it is answered by `ok`, `1.6K` and
/// `1.6c3`, the value shown, with tabs between; with `exact-short` and `-1.20c6` by `ok`, a tab and
/// `-1.20M`; with `read` and `-987,654.321` by `ok`, a tab and `-987654.321`; with `read-lenient` and
/// `.5` by `ok`, a tab and `0.5`. Under the sample book of units `currency-EUR` and `-1234.5` are answered by `ok`, a tab
/// and `-€1,234.50`, `read-currency-EUR` with this text by `ok`, a tab and `-1234.50`, and `read-lenient-currency-EUR`
/// with `-1234.5 €` by `ok`, a tab and `-1234.5`. Under the sample book `en` and `plural` with `1` are answered by `ok`, a
/// tab and `one`, `range-plural` with `1..2` by `ok`, a tab and `other`. Under the world's book `scientific` with
/// `1234567.891` is answered by `ok`, `1.234567891E6` and `1.234567891e6`, with tabs between. A line that is refused is
/// answered by `err`, a tab and the first word that applies: `shape`, `tag`, `number`, `limit`,
/// `table`, `range`, `exponent`, `unreadable`, `not-written`; an empty line by `shape`. A line feed in it
/// is an ordinary byte. Allocates. `AllocError`: out of memory. Tags are the whole locale tags of
/// UTS 35, of which only the preferences count; the lines are defined in docs/requests.md.
pub fn answer(alloc: Global, book: &Book, line: &[u8]) -> Result<Vec<u8>, AllocError>
    ensures text { IfOk result (λ text. text.items ≡ answer_of book.now line.now) }
{
    let mut out = String::new(alloc);
    match answer_alone(alloc, book, line, &mut out) {
        Ok(()) => Ok(out.into_bytes()),
        Err(AllocError) => Err(AllocError),
    }
}
