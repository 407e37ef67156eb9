//! The task that reads what people type: the number that was typed, as an answer.

ghost use Rattle.std.specs.Prelude.{◌≡◌, ◌⊎◌, true, ◌∷◌, ◌++◌, List, Option, Some, IsOk, OnOk, OnErr, string_bytes};
ghost use Rattle.locale_numbers_lines.specs.Growth.{Grows};
ghost use Rattle.locale_numbers_answers.specs.AnswerSink.{HasRoom};
ghost use Rattle.locale_numbers_answers.specs.AnswerMemory.{TypedFoundAllocates};
ghost use Rattle.locale_numbers_answers.specs.Answers.{typed_found};
ghost use Rattle.locale_numbers_answers.specs.ReadAnswer.{read_answer};
ghost use Rattle.locale_numbers_formatter.specs.FormatText.{HasNoUnit};
ghost use Rattle.locale_numbers_formatter.specs.FormatTyped.{TypedAllocates, format_typed_reading, typed_of};
ghost use Rattle.locale_numbers.specs.Front.{PutsTogether};
ghost use Rattle.locale_numbers.specs.KeptFormatters.{StillKeeps, found_by, second_by, typed_is_kept};
ghost use Rattle.locale_numbers.specs.declared.formatter_key.FormatterKey.{FormatterKey};
ghost use Rattle.locale_numbers.specs.declared.formatter_key.Purpose.{Purpose};

use crate::formatter_key::{FormatterKey, Purpose};
use crate::formatters::Formatters;
use crate::kept_formatter::KeptFormatter;
use locale_numbers_answers::{write_lenient_answer, write_refusal};
use locale_numbers_cache::Hashed;
use locale_numbers_requests::Refusal;
use std::alloc::{AllocError, Global};

// Writes the answer to a text that was typed, by a formatter, after what `out` holds. What reads it is put together now,
// where it is not kept. It is apart, so that this takes no room on the stack where a formatter is made.
#[inline(never)]
fn read_typed_by_formatter(
    alloc: Global,
    kept: &KeptFormatter<'_>,
    text: &str,
    out: &mut String,
) -> Result<(), AllocError>
    ensures text { OnOk result (string_bytes out.new ≡ string_bytes out.old
        ++ read_answer (format_typed_reading kept.now.formatter kept.now.second text.now)) }
    ensures err { OnErr result (Grows (string_bytes out.old) (string_bytes out.new)) }

    // Where there is room for the answer, only a text that is folded, or one of more than sixteen digits, may be out of
    // memory, and what is put together of a unit.
    ensures room { HasRoom out.old
        (read_answer (format_typed_reading kept.now.formatter kept.now.second text.now))
        → HasNoUnit kept.now.formatter ⊎ (kept.now.keeps_typed ≡ true)
        → ¬ (TypedAllocates (typed_of kept.now.formatter kept.now.second) text.now) → IsOk result }
{
    if let Some(reader) = &kept.lenient {
        return write_lenient_answer(alloc, &**reader, text, out);
    }
    match kept.formatter.lenient_reader(alloc, kept.second.as_ref()) {
        Ok(reader) => {
            let written = write_lenient_answer(alloc, &reader, text, out);
            drop(reader);
            written
        }
        Err(refused) => Err(refused),
    }
}

// Writes the answer to a text that the formatter of a key reads leniently after what `out` holds.
//
// `AllocError`: out of memory; a part of the answer may then be there.
#[inline(never)]
pub(crate) fn answer_lenient<'a, F: Formatters<'a>>(
    alloc: Global,
    formatters: &mut F,
    key: &Hashed<FormatterKey>,
    text: &str,
    out: &mut String,
) -> Result<(), AllocError>
    requires ready { F.is_ready formatters.old }
    requires right { F.is_right_for formatters.old key.now }
    requires typed { key.now.purpose ≡ Purpose.ReadsTyped }
    ensures text { OnOk result (string_bytes out.new ≡ string_bytes out.old
        ++ typed_found (found_by (F.book formatters.old) key.now)
        (second_by (F.book formatters.old) key.now) text.now) }
    ensures err { OnErr result (Grows (string_bytes out.old) (string_bytes out.new)) }

    // Where there is room for the answer, and handing out the formatter of the key takes none, only a text that is
    // folded, or one of more than sixteen digits, may be out of memory, and what is put together of a unit where nothing
    // is kept.
    ensures room { HasRoom out.old
        (typed_found (found_by (F.book formatters.old) key.now) (second_by (F.book formatters.old) key.now) text.now)
        → ¬ (F.may_take_memory formatters.old key.now)
        → ¬ (TypedFoundAllocates (found_by (F.book formatters.old) key.now)
        (second_by (F.book formatters.old) key.now) text.now)
        → ¬ (PutsTogether (typed_is_kept (F.kept_for formatters.old key.now))
        (found_by (F.book formatters.old) key.now)) → IsOk result }
    ensures counted { OnOk result ((more : List (Option FormatterKey)) →
        F.keeping_over formatters.old (Some key.now ∷ more) ≡ F.keeping_over formatters.new more) }
    ensures kept { StillKeeps (F.kept_for formatters.old) (F.may_take_memory formatters.new)
        (F.kept_for formatters.new) }
    ensures same { F.book formatters.new ≡ F.book formatters.old }
    ensures ready { F.is_ready formatters.new }
    ensures right { F.is_right_for formatters.new key.now }
{
    let found = formatters.find(key)?;
    if !found {
        return write_refusal(out, Refusal::Table);
    }
    read_typed_by_formatter(alloc, formatters.found(key), text, out)
}
