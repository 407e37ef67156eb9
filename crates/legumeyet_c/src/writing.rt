//! Numbers written: `legumeyet_formatter_format`, `_format_i64`, `_format_u64` and `_format_double`.

ghost use Rattle.std.specs.Prelude.{◌≡◌, pos};
ghost use Rattle.legumeyet_c_values.specs.Numbers.{double, given_of, scaled, spelled};
ghost use Rattle.legumeyet_c_values.specs.Putting.{Answers, IsPut};
ghost use Rattle.legumeyet_c.specs.Kinds.{format_in};
ghost use Rattle.legumeyet_c.specs.Opened.{opened};
ghost use Rattle.legumeyet_c.specs.Views.{format_content, format_open};
ghost use Rattle.legumeyet_c.specs.Worded.{IsText, IsTextFault};
ghost use Rattle.legumeyet_c.specs.Writing.{IsNumberWritingFault, WritesNumber};

use crate::asking::{asked, rules_asked, texts_asked};
use crate::categories::put_spelled_category;
use crate::content::Content;
use crate::direct::put_digits;
use crate::format_writer::{FormatWriter, write_given};
use crate::handles::FormatterHandle;
use crate::own_texts::answer_own_text;
use fixed_decimal::Decimal;
use icu_decimal_direct::TextDigits;
use legumeyet_c_values::{GivenNumber, NumberWriter, status_of};
use std::alloc::Global;

// Answers a call that writes a number with what is open.
pub(crate) fn answer_number(
    alloc: Global,
    content: Option<&Content>,
    number: GivenNumber<'_>,
    words: &[i32],
    out: &mut [u8],
    length: &mut usize,
) -> i32
    ensures { Answers
        (IsPut (WritesNumber IsText (format_in (opened content.entry)) words.now (given_of number.entry))
        (IsNumberWritingFault IsTextFault (format_in (opened content.entry)) words.now (given_of number.entry))
        out.old out.new length.old length.new) result }
{
    match asked(alloc, content, words) {
        Ok(asked) => {
            let (lent, options) = (&asked.lent, &asked.options);
            let mut value = Decimal::zero(alloc);
            status_of(write_given(alloc, lent, options, number, &mut value, out, length))
        }
        Err(error) => error.number(),
    }
}

// Answers a call that writes the number that a text spells with what is open, by tables that are borrowed for the call.
fn answer_text_once(
    alloc: Global,
    content: Option<&Content>,
    text: &[u8],
    words: &[i32],
    out: &mut [u8],
    length: &mut usize,
) -> i32
    ensures { Answers
        (IsPut (WritesNumber IsText (format_in (opened content.entry)) words.now (spelled text.now))
        (IsNumberWritingFault IsTextFault (format_in (opened content.entry)) words.now (spelled text.now)) out.old
        out.new length.old length.new) result }
{
    match asked(alloc, content, words) {
        Ok(asked) => {
            let writer = FormatWriter::new(&asked.lent, &asked.options);
            let mut value = Decimal::zero(alloc);
            status_of(writer.write_text(alloc, text, &mut value, out, length))
        }
        Err(error) => error.number(),
    }
}

// The same, where no tables that texts are put with are kept: the word of a category at once, where it can be.
pub(crate) fn answer_unkept_text(
    alloc: Global,
    content: Option<&Content>,
    text: &[u8],
    words: &[i32],
    out: &mut [u8],
    length: &mut usize,
) -> i32
    ensures { Answers
        (IsPut (WritesNumber IsText (format_in (opened content.entry)) words.now (spelled text.now))
        (IsNumberWritingFault IsTextFault (format_in (opened content.entry)) words.now (spelled text.now)) out.old
        out.new length.old length.new) result }
{
    match rules_asked(content, words) {
        Some(rules) => status_of(put_spelled_category(alloc, rules, text, out, length)),
        None => answer_text_once(alloc, content, text, words, out, length),
    }
}

// Answers a call that writes the number that a text spells with what is open, directly where it can be.
#[inline(always)]
pub(crate) fn answer_text(
    alloc: Global,
    content: Option<&Content>,
    text: &[u8],
    words: &[i32],
    out: &mut [u8],
    length: &mut usize,
) -> i32
    ensures { Answers
        (IsPut (WritesNumber IsText (format_in (opened content.entry)) words.now (spelled text.now))
        (IsNumberWritingFault IsTextFault (format_in (opened content.entry)) words.now (spelled text.now)) out.old
        out.new length.old length.new) result }
{
    let Some(texts) = texts_asked(content, words) else {
        return answer_own_text(alloc, content, text, words, out, length);
    };
    match TextDigits::of(text) {
        Some(digits) => status_of(put_digits(texts, &digits, out, length)),
        None => answer_number(alloc, content, GivenNumber::Text(text), words, out, length),
    }
}

/// Writes a decimal number that is given as text: `-987654.321` in English as `-987,654.321`, as `-988K`, as
/// `-9.87654321E5`, as `-987,654.321%`, with euros as `-€987,654.32`, or as the word of its plural category, `other`. Of
/// a scientific number the options change the significand: `-9.88E5` by two digits of a fraction.
///
/// Returns 0; 2, the handle is closed; 4, an option is unknown; 7, the text is no decimal number; 8, one with a digit
/// beyond the magnitudes -32768 to 32767; 9, what compact or scientific text shows has such a digit; 1, out of memory,
/// which a number of sixteen digits at most takes only where it is rounded to multiples of 25; 3, the text needs more
/// room.
#[unsafe(no_mangle)]
pub extern "C" fn legumeyet_formatter_format(
    alloc: Global,
    formatter: &mut FormatterHandle,
    number: &[u8],
    options: &[i32],
    out: &mut [u8],
    length: &mut usize,
) -> i32
    ensures same { format_content formatter.new ≡ format_content formatter.old }
    ensures told { Answers
        (IsPut (WritesNumber IsText (format_open formatter.old) options.now (spelled number.now))
        (IsNumberWritingFault IsTextFault (format_open formatter.old) options.now (spelled number.now))
        out.old out.new length.old length.new) result }
{
    answer_text(
        alloc,
        formatter.handle.content(),
        number,
        options,
        out,
        length,
    )
}

/// Writes the number `mantissa` times ten to the power `exponent`: -123456 and -2 in English as `-1,234.56`, and 500 and
/// -2 as `5.00`.
///
/// Returns as `legumeyet_formatter_format`, but for 7; 8, where the first digit would be above magnitude 32767.
#[unsafe(no_mangle)]
pub extern "C" fn legumeyet_formatter_format_i64(
    alloc: Global,
    formatter: &mut FormatterHandle,
    mantissa: i64,
    exponent: i16,
    options: &[i32],
    out: &mut [u8],
    length: &mut usize,
) -> i32
    ensures same { format_content formatter.new ≡ format_content formatter.old }
    ensures told { Answers
        (IsPut (WritesNumber IsText (format_open formatter.old) options.now (scaled mantissa exponent))
        (IsNumberWritingFault IsTextFault (format_open formatter.old) options.now (scaled mantissa exponent))
        out.old out.new length.old length.new) result }
{
    let number = GivenNumber::Scaled(mantissa, exponent);
    let content = formatter.handle.content();
    answer_number(alloc, content, number, options, out, length)
}

/// Writes the number `mantissa` times ten to the power `exponent`: 18446744073709551615 and -2 in English as
/// `184,467,440,737,095,516.15`.
///
/// Returns as `legumeyet_formatter_format_i64`.
#[unsafe(no_mangle)]
pub extern "C" fn legumeyet_formatter_format_u64(
    alloc: Global,
    formatter: &mut FormatterHandle,
    mantissa: u64,
    exponent: i16,
    options: &[i32],
    out: &mut [u8],
    length: &mut usize,
) -> i32
    ensures same { format_content formatter.new ≡ format_content formatter.old }
    ensures told { Answers
        (IsPut (WritesNumber IsText (format_open formatter.old) options.now (scaled (pos mantissa) exponent))
        (IsNumberWritingFault IsTextFault (format_open formatter.old) options.now (scaled (pos mantissa) exponent))
        out.old out.new length.old length.new) result }
{
    let number = GivenNumber::ScaledUnsigned(mantissa, exponent);
    let content = formatter.handle.content();
    answer_number(alloc, content, number, options, out, length)
}

/// Writes a double, by the shortest digits that give it back: 0.1 in English as `0.1`, 5.0 as `5`, and -0.0 as `-0`.
///
/// Returns as `legumeyet_formatter_format`, but for 8; 7 of what is not finite.
#[unsafe(no_mangle)]
pub extern "C" fn legumeyet_formatter_format_double(
    alloc: Global,
    formatter: &mut FormatterHandle,
    number: f64,
    options: &[i32],
    out: &mut [u8],
    length: &mut usize,
) -> i32
    ensures same { format_content formatter.new ≡ format_content formatter.old }
    ensures told { Answers
        (IsPut (WritesNumber IsText (format_open formatter.old) options.now (double number))
        (IsNumberWritingFault IsTextFault (format_open formatter.old) options.now (double number)) out.old out.new
        length.old length.new) result }
{
    let number = GivenNumber::Double(number);
    let content = formatter.handle.content();
    answer_number(alloc, content, number, options, out, length)
}
