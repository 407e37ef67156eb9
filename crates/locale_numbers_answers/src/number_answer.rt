//! The answer to a number by a formatter: its text, and the value shown where that is another.

ghost use Rattle.std.specs.Prelude.{◌≡◌, ◌≤◌, true, ◌++◌, IfSome, Some, IsOk, OnOk, OnErr, IsErrOf, string_bytes};
ghost use Rattle.std.specs.Str.{is_utf8};
ghost use Rattle.icu_decimal.specs.HeldTables.{tables_of};
ghost use Rattle.icu_decimal_direct.specs.HeldUnits.{unit_texts};
ghost use Rattle.icu_decimal_direct.specs.TextDigits.{number_spelled};
ghost use Rattle.icu_decimal_direct.specs.TextTables.{text_tables};
ghost use Rattle.icu_decimal_direct.specs.UnitTexts.{IsShownBy, shown_down};
ghost use Rattle.icu_dimension.specs.HeldFormatters.{code_of, currency_settings_of, settings_of_percent, sign_of};
ghost use Rattle.locale_numbers_lines.specs.Growth.{Grows};
ghost use Rattle.locale_numbers_formatter.specs.FormatReading.{reader_of, reads_between};
ghost use Rattle.locale_numbers_formatter.specs.FormatText.{MayLengthen, plain_tables, unit_tables};
ghost use Rattle.locale_numbers_formatter.specs.HeldFormats.{currency_format, percent_format};
ghost use Rattle.locale_numbers_answers.specs.AnswerMemory.{ReadsMore};
ghost use Rattle.locale_numbers_answers.specs.AnswerSink.{HasRoom};
ghost use Rattle.locale_numbers_answers.specs.DigitChange.{digits_changed};
ghost use Rattle.locale_numbers_answers.specs.NumberAnswer.{number_answer};
ghost use Rattle.locale_numbers_answers.specs.NumberReading.{number, beyond, nothing, reading_of};
ghost use Rattle.locale_numbers_answers.specs.UnitAnswer.{texts_read};

use crate::answer_line::{write_joined, write_ok};
use crate::answer_sink::write_piece;
use crate::compact_answer::{write_compact, write_compact_digits};
use crate::digit_change::DigitChange;
use crate::scientific_answer::write_scientific;
use fixed_decimal::{Decimal, ParseError};
use icu_decimal::DecimalFormatter;
use icu_decimal_direct::{TextDigits, TextTables, UnitTextTables};
use icu_dimension::laws::units::text_law;
use icu_dimension::{CurrencyFormatter, PercentFormatter};
use locale_numbers_formatter::laws::{plain_is_layered, unit_is_layered, written_reads_back};
use locale_numbers_formatter::{FormatterKind, NumberFormatter, NumberReader};
use std::alloc::AllocError;

/// Reads the number that a text says in place of the one that is there: of `-987654.321` it reads -987654.321.
///
/// `Syntax`: it says none. `Limit`: it says one beyond the limits. `Memory`: out of memory.
pub fn read_number(value: &mut Decimal, text: &[u8]) -> Result<(), ParseError>
    ensures value { OnOk result (reading_of text.now ≡ number value.new) }
    ensures limit { IsErrOf result ParseError.Limit → reading_of text.now ≡ beyond }
    ensures text { OnOk result (is_utf8 text.now ≡ true) }
    ensures limit_text { IsErrOf result ParseError.Limit → is_utf8 text.now ≡ true }
    ensures syntax { IsErrOf result ParseError.Syntax → reading_of text.now ≡ nothing }

    // Only a text that says a number of more than sixteen digits, and of more than the one that is there, is told as
    // out of memory.
    ensures memory { IsErrOf result ParseError.Memory → ReadsMore text.now value.old }
{
    value.assign_from_utf8(text)
}

// Writes the answer that is a plain number after what `out` holds.
fn write_plain(
    formatter: &DecimalFormatter<'_>,
    value: &Decimal,
    out: &mut String,
) -> Result<(), AllocError>
    ensures text { OnOk result (string_bytes out.new
        ≡ string_bytes out.old ++ number_answer (plain_tables (tables_of formatter.now)) value.now) }
    ensures err { OnErr result (Grows (string_bytes out.old) (string_bytes out.new)) }
    ensures room { HasRoom out.old (number_answer (plain_tables (tables_of formatter.now)) value.now) → IsOk result }
{
    plain_is_layered();
    write_ok(out, &formatter.format(value))
}

// Writes the answer that is percents after what `out` holds: by a reader that has put their affixes together, where there
// is one.
fn write_percents(
    formatter: &PercentFormatter<'_>,
    reader: Option<&NumberReader<'_>>,
    value: &Decimal,
    out: &mut String,
) -> Result<(), AllocError>
    requires { IfSome reader (λ reader. reader.now
        ≡ reader_of (unit_tables (percent_format (sign_of formatter.now) (settings_of_percent formatter.now)))) }
    ensures text { OnOk result (string_bytes out.new
        ≡ string_bytes out.old ++ number_answer
        (unit_tables (percent_format (sign_of formatter.now) (settings_of_percent formatter.now))) value.now) }
    ensures err { OnErr result (Grows (string_bytes out.old) (string_bytes out.new)) }
    ensures room { HasRoom out.old
        (number_answer (unit_tables (percent_format (sign_of formatter.now) (settings_of_percent formatter.now)))
        value.now) → IsOk result }
{
    written_reads_back();
    unit_is_layered();
    text_law();
    match reader {
        Some(reader) => write_joined(reader, value, out),
        None => write_ok(out, &formatter.format(value)),
    }
}

// The same of an amount.
fn write_amount(
    formatter: &CurrencyFormatter<'_>,
    reader: Option<&NumberReader<'_>>,
    value: &Decimal,
    out: &mut String,
) -> Result<(), AllocError>
    requires { IfSome reader (λ reader. reader.now
        ≡ reader_of (unit_tables (currency_format (code_of formatter.now) (currency_settings_of formatter.now)))) }
    ensures text { OnOk result (string_bytes out.new
        ≡ string_bytes out.old ++ number_answer
        (unit_tables (currency_format (code_of formatter.now) (currency_settings_of formatter.now))) value.now) }
    ensures err { OnErr result (Grows (string_bytes out.old) (string_bytes out.new)) }
    ensures room { HasRoom out.old
        (number_answer (unit_tables (currency_format (code_of formatter.now) (currency_settings_of formatter.now)))
        value.now) → IsOk result }
{
    written_reads_back();
    unit_is_layered();
    text_law();
    match reader {
        Some(reader) => write_joined(reader, value, out),
        None => write_ok(out, &formatter.format(value)),
    }
}

/// Writes the answer to a number by a formatter after what `out` holds: `ok`, a tab and its text, and of a compact or a
/// scientific format a tab and the value shown, or the word `range` where it can't be shown.
///
/// By the formatter of `en` -987654.321 is answered by `ok`, a tab and `-987,654.321`; by a short one 1650 by `ok`,
/// `1.6K` and `1.6c3`, with tabs between, and the number becomes what is shown; by a scientific one 1200000 by `ok`,
/// `1.2E6` and `1.2e6`, and the number becomes the significand. The number is written as it is given. With a reader of the
/// formatter's its affixes are written, which were put together once; the condition is that it is the formatter's. Where
/// there is room, it may allocate only by digits of its own, or of a significand, that are rounded to multiples of 25.
/// `AllocError`: out of memory; a part of the answer may then be there.
pub fn write_number_answer(
    formatter: &NumberFormatter<'_>,
    reader: Option<&NumberReader<'_>>,
    value: &mut Decimal,
    out: &mut String,
) -> Result<(), AllocError>
    requires { IfSome reader (λ reader. reader.now ≡ reader_of formatter.now) }
    ensures text { OnOk result (string_bytes out.new ≡ string_bytes out.old ++ number_answer formatter.now value.old) }
    ensures err { OnErr result (Grows (string_bytes out.old) (string_bytes out.new)) }
    ensures room { HasRoom out.old (number_answer formatter.now value.old) → ¬ (MayLengthen formatter.now)
        → IsOk result }
{
    match formatter.kind() {
        FormatterKind::Plain(formatter) => write_plain(formatter, value, out),
        FormatterKind::Compact(formatter) => write_compact(formatter, value, out),
        FormatterKind::CompactDigits(formatter) => write_compact_digits(formatter, value, out),
        FormatterKind::Percent(formatter) => write_percents(formatter, reader, value, out),
        FormatterKind::Currency(formatter) => write_amount(formatter, reader, value, out),
        FormatterKind::Scientific(formatter) => write_scientific(formatter, value, out),
    }
}

// The bytes that an answer may have whose text is put directly, those of one that is changed, and those of one with a unit.
// The second is another, so that each way is compiled by itself.
const ROOM: usize = 139;

const CHANGED_ROOM: usize = 140;

const UNIT_ROOM: usize = 195;

/// Writes the answer that is the number of a text, put directly with these tables, after what `out` holds.
///
/// With those of `en` the digits of -987654.321 are answered by `ok`, a tab and `-987,654.321`. Where there is room, it
/// does not allocate. `AllocError`: out of memory; `out` is then as before.
pub fn write_digits_answer(
    tables: &TextTables<'_>,
    digits: &TextDigits<'_>,
    out: &mut String,
) -> Result<(), AllocError>
    ensures text { OnOk result (string_bytes out.new
        ≡ string_bytes out.old ++ number_answer (plain_tables (text_tables tables.now)) (number_spelled digits.now)) }
    ensures err { OnErr result (string_bytes out.new ≡ string_bytes out.old) }
    ensures room { HasRoom out.old (number_answer (plain_tables (text_tables tables.now)) (number_spelled digits.now))
        → IsOk result }
{
    plain_is_layered();
    let mut answer = [0; ROOM];
    answer[0] = b'o';
    answer[1] = b'k';
    answer[2] = b'\t';
    let end = tables.put(digits, &mut answer, 3);
    write_piece(out, unsafe { str::from_utf8_unchecked(&answer[..end]) })
}

/// Writes the answer that is the number of a text, changed by options that round no digit away, put directly with these
/// tables, after what `out` holds.
///
/// With those of `en`, and two fraction digits at least and `Show(Always)`, the digits of 5 are answered by `ok`, a tab and
/// `+5.00`. The condition is that 32 digits at most are shown at least. Where there is room, it does not allocate.
/// `AllocError`: out of memory; `out` is then as before.
pub fn write_changed_digits_answer(
    tables: &TextTables<'_>,
    change: DigitChange,
    digits: &TextDigits<'_>,
    out: &mut String,
) -> Result<(), AllocError>
    requires { change.least ≤ 32 }
    ensures text { OnOk result (string_bytes out.new ≡ string_bytes out.old
        ++ number_answer (plain_tables (text_tables tables.now)) (digits_changed change (number_spelled digits.now))) }
    ensures err { OnErr result (string_bytes out.new ≡ string_bytes out.old) }
    ensures room { HasRoom out.old
        (number_answer (plain_tables (text_tables tables.now)) (digits_changed change (number_spelled digits.now)))
        → IsOk result }
{
    plain_is_layered();
    let signed = change.signed(digits);
    let mut answer = [0; CHANGED_ROOM];
    answer[0] = b'o';
    answer[1] = b'k';
    answer[2] = b'\t';
    let end = tables.put_shown(&signed, change.least, &mut answer, 3);
    write_piece(out, unsafe { str::from_utf8_unchecked(&answer[..end]) })
}

/// Writes the answer that is the number of a text with its unit, put directly with these tables, after what `out` holds.
///
/// With those of `en` and euros the digits of -1234.5 are answered by `ok`, a tab and `-€1,234.50`. The conditions are that
/// the tables are the formatter's, and that the digits can be put. Where there is room, it does not allocate.
/// `AllocError`: out of memory; `out` is then as before.
pub fn write_unit_digits_answer(
    _formatter: &NumberFormatter<'_>,
    tables: &UnitTextTables<'_>,
    digits: &TextDigits<'_>,
    out: &mut String,
) -> Result<(), AllocError>
    requires known { reader_of _formatter.now ≡ Some (reads_between (texts_read (unit_texts tables.now))) }
    requires shown { IsShownBy (unit_texts tables.now) (number_spelled digits.now) }
    ensures text { OnOk result (string_bytes out.new ≡ string_bytes out.old
        ++ number_answer _formatter.now (shown_down (unit_texts tables.now).least (number_spelled digits.now))) }
    ensures err { OnErr result (string_bytes out.new ≡ string_bytes out.old) }
    ensures room { HasRoom out.old
        (number_answer _formatter.now (shown_down (unit_texts tables.now).least (number_spelled digits.now)))
        → IsOk result }
{
    written_reads_back();
    let mut answer = [0; UNIT_ROOM];
    answer[0] = b'o';
    answer[1] = b'k';
    answer[2] = b'\t';
    let end = tables.put(digits, &mut answer, 3);
    write_piece(out, unsafe { str::from_utf8_unchecked(&answer[..end]) })
}
