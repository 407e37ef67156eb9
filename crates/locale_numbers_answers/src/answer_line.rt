//! The two kinds of answer.

ghost use Rattle.std.specs.Prelude.{◌≡◌, true, ◌≤◌, ◌++◌, IsOk, OnOk, OnErr, string_bytes, string_capacity};
ghost use Rattle.writeable.specs.AnnotatedText.{text_of};
ghost use Rattle.locale_numbers_lines.specs.Growth.{Grows};
ghost use Rattle.locale_numbers_formatter.specs.FormatReading.{is_joined, text_by_reader};
ghost use Rattle.locale_numbers_answers.specs.AnswerLine.{if_text, refused, written};
ghost use Rattle.locale_numbers_answers.specs.AnswerSink.{HasRoom};

use crate::answer_sink::{write_between, write_text_of};
use fixed_decimal::Decimal;
use locale_numbers_formatter::NumberReader;
use locale_numbers_requests::{Refusal, is_text};
use std::alloc::AllocError;
use writeable::Writeable;

/// Writes `err`, a tab and the word of a refusal after what `out` holds: for `Table` `err`, a tab and `table`.
///
/// Where there is room, it does not allocate. `AllocError`: out of memory; a part of the answer may then be there.
pub fn write_refusal(out: &mut String, cause: Refusal) -> Result<(), AllocError>
    ensures text { OnOk result (string_bytes out.new ≡ string_bytes out.old ++ refused cause) }
    ensures err { OnErr result (Grows (string_bytes out.old) (string_bytes out.new)) }
    ensures room { HasRoom out.old (refused cause) → IsOk result }
{
    out.push_str("err\t")?;
    out.push_str(cause.word())
}

/// Writes a refusal of a line with this text after what `out` holds, or one by `shape`, where the text is not UTF-8.
///
/// Of the text `1e` by `Number` it writes `err`, a tab and `number`. Where there is room, it does not allocate.
/// `AllocError`: out of memory; a part of the answer may then be there.
pub fn write_refusal_or_shape(
    out: &mut String,
    text: &[u8],
    cause: Refusal,
) -> Result<(), AllocError>
    ensures text { OnOk result (string_bytes out.new ≡ string_bytes out.old ++ if_text text.now (refused cause)) }
    ensures err { OnErr result (Grows (string_bytes out.old) (string_bytes out.new)) }
    ensures room { HasRoom out.old (if_text text.now (refused cause)) → IsOk result }
{
    if is_text(text) {
        write_refusal(out, cause)
    } else {
        write_refusal(out, Refusal::Shape)
    }
}

// Writes `ok`, a tab and a word after what `out` holds.
pub(crate) fn write_word(word: &str, out: &mut String) -> Result<(), AllocError>
    ensures text { OnOk result (string_bytes out.new ≡ string_bytes out.old ++ written word.now) }
    ensures err { OnErr result (Grows (string_bytes out.old) (string_bytes out.new)) }
    ensures room { HasRoom out.old (written word.now) → IsOk result }
{
    out.push_str("ok\t")?;
    out.push_str(word)
}

// Writes `ok`, a tab and the text of a value after what `out` holds.
pub(crate) fn write_ok<T: Writeable>(out: &mut String, value: &T) -> Result<(), AllocError>
    ensures text { OnOk result (string_bytes out.new ≡ string_bytes out.old ++ written (text_of (T.events value.now))) }
    ensures err { OnErr result (Grows (string_bytes out.old) (string_bytes out.new)) }
    ensures room { HasRoom out.old (written (text_of (T.events value.now))) → IsOk result }
    ensures capacity { OnOk result (string_capacity out.old ≤ string_capacity out.new) }
{
    out.push_str("ok\t")?;
    write_text_of(out, value)
}

// Writes `ok`, a tab and a number, between affixes that a reader has put together, after what `out` holds.
pub(crate) fn write_joined(
    reader: &NumberReader<'_>,
    value: &Decimal,
    out: &mut String,
) -> Result<(), AllocError>
    requires { is_joined reader.now ≡ true }
    ensures text { OnOk result
        (string_bytes out.new ≡ string_bytes out.old ++ written (text_by_reader reader.now value.now)) }
    ensures err { OnErr result (Grows (string_bytes out.old) (string_bytes out.new)) }
    ensures room { HasRoom out.old (written (text_by_reader reader.now value.now)) → IsOk result }
{
    out.push_str("ok\t")?;
    write_between(reader, value, out)
}
