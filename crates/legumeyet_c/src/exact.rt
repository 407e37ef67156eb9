//! Exact forms, and the values that texts show: `legumeyet_formatter_format_exact` and `_shown`.

ghost use Rattle.std.specs.Prelude.{◌≡◌, Ok};
ghost use Rattle.legumeyet_c_values.specs.Numbers.{spelled};
ghost use Rattle.legumeyet_c_values.specs.Putting.{Answers, IsPut};
ghost use Rattle.legumeyet_c.specs.Kinds.{format_in};
ghost use Rattle.legumeyet_c.specs.Opened.{opened};
ghost use Rattle.legumeyet_c.specs.Views.{format_content, format_open};
ghost use Rattle.legumeyet_c.specs.Worded.{IsNotShown, IsShown};
ghost use Rattle.legumeyet_c.specs.Writing.{GivesNumber, IsFormWritingFault, IsNumberRefused, IsNumberWritingFault, IsWritingFault, Writes, WritesForm, WritesNumber, asked_for};

use crate::asking::asked;
use crate::content::Content;
use crate::formatting::{put_form, put_shown};
use crate::handles::FormatterHandle;
use crate::lent_formatter::LentFormatter;
use fixed_decimal::Decimal;
use legumeyet_c_values::{CallError, GivenNumber, compact_of_text, status_of};
use locale_numbers_formats::NumberOptions;
use std::alloc::Global;

// Answers a call that writes an exact form with what is open.
pub(crate) fn answer_form(
    alloc: Global,
    content: Option<&Content>,
    number: &[u8],
    words: &[i32],
    out: &mut [u8],
    length: &mut usize,
) -> i32
    ensures { Answers
        (IsPut (WritesForm (format_in (opened content.entry)) words.now number.now)
        (IsFormWritingFault (format_in (opened content.entry)) words.now number.now) out.old out.new length.old
        length.new) result }
{
    match asked(alloc, content, words) {
        Ok(asked) => {
            let fractions = asked.lent.fractions();
            match compact_of_text(alloc, number, &asked.options, fractions) {
                Ok(form) => status_of(put_form(&asked.lent, &form, out, length)),
                Err(error) => error.number(),
            }
        }
        Err(error) => error.number(),
    }
}

// Writes the value shown of a number, which is read into `value` and changed by these options.
fn write_shown(
    alloc: Global,
    lent: &LentFormatter<'_>,
    options: &NumberOptions,
    number: &[u8],
    value: &mut Decimal,
    out: &mut [u8],
    length: &mut usize,
) -> Result<(), CallError>
    ensures { IsPut (Writes IsShown (GivesNumber (spelled number.now)) (Ok (asked_for lent.now options.now)))
        (IsWritingFault IsNotShown (GivesNumber (spelled number.now)) (IsNumberRefused (spelled number.now))
        (Ok (asked_for lent.now options.now))) out.old out.new length.old length.new result }
{
    match GivenNumber::Text(number).assign_changed(alloc, options, lent.fractions(), value) {
        Ok(()) => put_shown(lent, value, out, length),
        Err(error) => Err(error),
    }
}

// Answers a call that writes the value that the text of a number shows with what is open.
pub(crate) fn answer_shown(
    alloc: Global,
    content: Option<&Content>,
    number: &[u8],
    words: &[i32],
    out: &mut [u8],
    length: &mut usize,
) -> i32
    ensures { Answers
        (IsPut (WritesNumber IsShown (format_in (opened content.entry)) words.now (spelled number.now))
        (IsNumberWritingFault IsNotShown (format_in (opened content.entry)) words.now (spelled number.now)) out.old
        out.new length.old length.new) result }
{
    match asked(alloc, content, words) {
        Ok(asked) => {
            let (lent, options) = (&asked.lent, &asked.options);
            let mut value = Decimal::zero(alloc);
            status_of(write_shown(alloc, lent, options, number, &mut value, out, length))
        }
        Err(error) => error.number(),
    }
}

/// Writes a significand with an exponent, its digits as they are: `-1.20c6` in short English as `-1.20M`, and without
/// compact patterns, where the exponent is 0, `-1.20` as `-1.20`; with plurals the word of its category. The options change
/// the significand.
///
/// Returns 0; 2, the handle is closed; 4, an option is unknown; 7, the text is no compact number, as `1.2e6`; 8, its
/// significand has a digit beyond the magnitudes -32768 to 32767, or its exponent is above 255; 1, out of memory, which
/// a significand of sixteen digits at most takes only where it is rounded to multiples of 25; 9, the magnitude of both
/// together is above 32767 in a compact format; 13, the formatter has another exponent for this magnitude, as for
/// `1.2c5`, or writes scientific numbers; 3, the text needs more room.
#[unsafe(no_mangle)]
pub extern "C" fn legumeyet_formatter_format_exact(
    alloc: Global,
    formatter: &mut FormatterHandle,
    number: &[u8],
    options: &[i32],
    out: &mut [u8],
    length: &mut usize,
) -> i32
    ensures same { format_content formatter.new ≡ format_content formatter.old }
    ensures told { Answers
        (IsPut (WritesForm (format_open formatter.old) options.now number.now)
        (IsFormWritingFault (format_open formatter.old) options.now number.now) out.old out.new length.old length.new)
        result }
{
    let content = formatter.handle.content();
    answer_form(alloc, content, number, options, out, length)
}

/// Writes the value that the text of a number shows: of `-1172700` in short English `-1.2c6`, which is -1.2 times ten to
/// the power 6, of a scientific text `-1.1727e6`, and of any other the number after its options.
///
/// Returns as `legumeyet_formatter_format`; 1 also where the number, or what is shown for it, has more than sixteen
/// digits.
#[unsafe(no_mangle)]
pub extern "C" fn legumeyet_formatter_shown(
    alloc: Global,
    formatter: &mut FormatterHandle,
    number: &[u8],
    options: &[i32],
    out: &mut [u8],
    length: &mut usize,
) -> i32
    ensures same { format_content formatter.new ≡ format_content formatter.old }
    ensures told { Answers
        (IsPut (WritesNumber IsShown (format_open formatter.old) options.now (spelled number.now))
        (IsNumberWritingFault IsNotShown (format_open formatter.old) options.now (spelled number.now)) out.old
        out.new length.old length.new) result }
{
    let content = formatter.handle.content();
    answer_shown(alloc, content, number, options, out, length)
}
