//! Numbers written by a shared formatter: `legumeyet_shared_formatter_format`, `_format_i64`, `_format_u64`, `_format_double`,
//! `_format_exact`, `_shown` and `_format_parts`.

ghost use Rattle.std.specs.Prelude.{pos};
ghost use Rattle.legumeyet_c_values.specs.Numbers.{double, scaled, spelled};
ghost use Rattle.legumeyet_c_values.specs.Parts.{IsPutInParts, given};
ghost use Rattle.legumeyet_c_values.specs.Putting.{Answers, IsPut};
ghost use Rattle.legumeyet_c.specs.Views.{shared_format_open};
ghost use Rattle.legumeyet_c.specs.Worded.{IsInPartsFault, IsNotShown, IsShown, IsText, IsTextFault, IsTextInParts};
ghost use Rattle.legumeyet_c.specs.Writing.{IsFormWritingFault, IsNumberWritingFault, WritesForm, WritesNumber};

use crate::exact::{answer_form, answer_shown};
use crate::parts::answer_parts;
use crate::shared_handles::SharedFormatterHandle;
use crate::writing::{answer_number, answer_text};
use legumeyet_c_values::{GivenNumber, Interval};
use std::alloc::Global;

/// Writes a decimal number that is given as text: `-987654.321` in English as `-987,654.321`.
///
/// Returns as `legumeyet_formatter_format`.
#[unsafe(no_mangle)]
pub extern "C" fn legumeyet_shared_formatter_format(
    alloc: Global,
    formatter: &SharedFormatterHandle,
    number: &[u8],
    options: &[i32],
    out: &mut [u8],
    length: &mut usize,
) -> i32
    ensures { Answers
        (IsPut (WritesNumber IsText (shared_format_open formatter.now) options.now (spelled number.now))
        (IsNumberWritingFault IsTextFault (shared_format_open formatter.now) options.now (spelled number.now))
        out.old out.new length.old length.new) result }
{
    answer_text(
        alloc,
        formatter.handle.content(),
        number,
        options,
        out,
        length,
    )
}

/// Writes the number `mantissa` times ten to the power `exponent`: -123456 and -2 in English as `-1,234.56`.
///
/// Returns as `legumeyet_formatter_format_i64`.
#[unsafe(no_mangle)]
pub extern "C" fn legumeyet_shared_formatter_format_i64(
    alloc: Global,
    formatter: &SharedFormatterHandle,
    mantissa: i64,
    exponent: i16,
    options: &[i32],
    out: &mut [u8],
    length: &mut usize,
) -> i32
    ensures { Answers
        (IsPut (WritesNumber IsText (shared_format_open formatter.now) options.now (scaled mantissa exponent))
        (IsNumberWritingFault IsTextFault (shared_format_open formatter.now) options.now (scaled mantissa exponent))
        out.old out.new length.old length.new) result }
{
    let number = GivenNumber::Scaled(mantissa, exponent);
    let content = formatter.handle.content();
    answer_number(alloc, content, number, options, out, length)
}

/// Writes the number `mantissa` times ten to the power `exponent`: 18446744073709551615 and -2 in English as
/// `184,467,440,737,095,516.15`.
///
/// Returns as `legumeyet_formatter_format_i64`.
#[unsafe(no_mangle)]
pub extern "C" fn legumeyet_shared_formatter_format_u64(
    alloc: Global,
    formatter: &SharedFormatterHandle,
    mantissa: u64,
    exponent: i16,
    options: &[i32],
    out: &mut [u8],
    length: &mut usize,
) -> i32
    ensures { Answers
        (IsPut
        (WritesNumber IsText (shared_format_open formatter.now) options.now (scaled (pos mantissa) exponent))
        (IsNumberWritingFault IsTextFault (shared_format_open formatter.now) options.now
        (scaled (pos mantissa) exponent)) out.old out.new length.old length.new) result }
{
    let number = GivenNumber::ScaledUnsigned(mantissa, exponent);
    let content = formatter.handle.content();
    answer_number(alloc, content, number, options, out, length)
}

/// Writes a double, by the shortest digits that give it back: 0.1 in English as `0.1`, 5.0 as `5`, and -0.0 as `-0`.
///
/// Returns as `legumeyet_formatter_format_double`.
#[unsafe(no_mangle)]
pub extern "C" fn legumeyet_shared_formatter_format_double(
    alloc: Global,
    formatter: &SharedFormatterHandle,
    number: f64,
    options: &[i32],
    out: &mut [u8],
    length: &mut usize,
) -> i32
    ensures { Answers
        (IsPut (WritesNumber IsText (shared_format_open formatter.now) options.now (double number))
        (IsNumberWritingFault IsTextFault (shared_format_open formatter.now) options.now (double number)) out.old
        out.new length.old length.new) result }
{
    let number = GivenNumber::Double(number);
    let content = formatter.handle.content();
    answer_number(alloc, content, number, options, out, length)
}

/// Writes a significand with an exponent, its digits as they are: `-1.20c6` in short English as `-1.20M`.
///
/// Returns as `legumeyet_formatter_format_exact`.
#[unsafe(no_mangle)]
pub extern "C" fn legumeyet_shared_formatter_format_exact(
    alloc: Global,
    formatter: &SharedFormatterHandle,
    number: &[u8],
    options: &[i32],
    out: &mut [u8],
    length: &mut usize,
) -> i32
    ensures { Answers
        (IsPut (WritesForm (shared_format_open formatter.now) options.now number.now)
        (IsFormWritingFault (shared_format_open formatter.now) options.now number.now) out.old out.new length.old
        length.new) result }
{
    let content = formatter.handle.content();
    answer_form(alloc, content, number, options, out, length)
}

/// Writes the value that the text of a number shows: of `-1172700` in short English `-1.2c6`.
///
/// Returns as `legumeyet_formatter_shown`.
#[unsafe(no_mangle)]
pub extern "C" fn legumeyet_shared_formatter_shown(
    alloc: Global,
    formatter: &SharedFormatterHandle,
    number: &[u8],
    options: &[i32],
    out: &mut [u8],
    length: &mut usize,
) -> i32
    ensures { Answers
        (IsPut (WritesNumber IsShown (shared_format_open formatter.now) options.now (spelled number.now))
        (IsNumberWritingFault IsNotShown (shared_format_open formatter.now) options.now (spelled number.now))
        out.old out.new length.old length.new) result }
{
    let content = formatter.handle.content();
    answer_shown(alloc, content, number, options, out, length)
}

/// Writes a decimal number that is given as text, and lists the parts of its text in order of their beginning.
///
/// Returns as `legumeyet_formatter_format_parts`.
#[unsafe(no_mangle)]
pub extern "C" fn legumeyet_shared_formatter_format_parts(
    alloc: Global,
    formatter: &SharedFormatterHandle,
    number: &[u8],
    options: &[i32],
    out: &mut [u8],
    length: &mut usize,
    intervals: &mut [Interval],
    count: &mut usize,
) -> i32
    ensures { Answers
        (IsPutInParts
        (WritesNumber IsTextInParts (shared_format_open formatter.now) options.now (spelled number.now))
        (IsNumberWritingFault IsInPartsFault (shared_format_open formatter.now) options.now (spelled number.now))
        (given out.old length.old intervals.old count.old) (given out.new length.new intervals.new count.new))
        result }
{
    let content = formatter.handle.content();
    answer_parts(
        alloc, content, number, options, out, length, intervals, count,
    )
}
